// What a list of block numbers makes of a small study: the tides of a block, and its diameter.
use crate::small::{Small, at};
use study::Minima;

// Whether tide t is in the block and has the setting, if one is asked for.
fn counts(small: Small, list: [u8; 7], block: u8, setting: Option<u8>, t: usize) -> bool {
    at(list, t) == block
        && match setting {
            Some(number) => at(small.settings, t) == number,
            None => true,
        }
}

// The number of a block's tides of a setting, or of any setting.
pub fn members(small: Small, list: [u8; 7], block: u8, setting: Option<u8>) -> usize {
    (0..small.n)
        .filter(|t| counts(small, list, block, setting, *t))
        .count()
}

// Whether a block has at least b0 tides and at least b of each setting.
pub fn meets(small: Small, list: [u8; 7], block: u8) -> bool {
    let Minima { b0, b } = small.minima;
    if members(small, list, block, None) < usize::from(b0) {
        return false;
    }
    for j in 0..8u8 {
        let least = b[usize::from(j)];
        if members(small, list, block, Some(j + 1)) < usize::from(least) {
            return false;
        }
    }
    true
}

// The greatest distance inside a block.
pub fn diameter(small: Small, list: [u8; 7], block: u8) -> u32 {
    let mut greatest = 0;
    for i in 0..small.n {
        for j in 0..small.n {
            if at(list, i) == block && at(list, j) == block {
                greatest = greatest.max(small.distance(i, j));
            }
        }
    }
    greatest
}

// The greatest distance inside any block.
pub fn widest(small: Small, list: [u8; 7]) -> u32 {
    let mut greatest = 0;
    for block in list {
        greatest = greatest.max(diameter(small, list, block));
    }
    greatest
}
