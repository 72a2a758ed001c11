// Enumeration of every list.
ghost use Rattle.std.specs.Prelude.{◌≤◌};
ghost use Rattle.test_search.specs.Ranges.{Modest, AllBetween};

use study::{MAX_TIDES, Minima, TABLE_SIZE};

// What is asked of a table of allowed pairs: up to six tides and three blocks.
#[derive(Clone, Copy)]
pub struct Question<'a> {
    pub n: usize,
    pub blocks: usize,
    pub minima: Minima,
    pub settings: &'a [u8; 6],
    pub ghost few_tides: { n ≤ 6 },
    pub ghost few_blocks: { blocks ≤ 3 },
    pub ghost modest: { Modest minima },
    pub ghost valid: { AllBetween 1 8 settings.now },
}

impl Question<'_> {
    // Whether each tide has a block that it may go to.
    fn all_allowed(self, allowed: &[u8; TABLE_SIZE], list: &[u8; 8]) -> bool {
        for t in 0..self.n {
            let m = usize::from(list[t]);
            if self.blocks <= m {
                return false;
            }
            if allowed[m * MAX_TIDES + t] == 0 {
                return false;
            }
        }
        true
    }

    // How many tides are in block m and have the setting, if one is asked for.
    fn members(self, list: &[u8; 8], m: usize, setting: Option<u8>) -> usize {
        let mut count = 0;
        for t in 0..self.n {
            let counts = match setting {
                Some(number) => self.settings[t] == number,
                None => true,
            };
            count += usize::from(counts && usize::from(list[t]) == m);
        }
        count
    }

    // Whether block m has b0 tides, and b of each of the settings 1 to 3.
    fn meets(self, list: &[u8; 8], m: usize) -> bool {
        let Minima { b0, b } = self.minima;
        usize::from(b0) <= self.members(list, m, None)
            && usize::from(b[0]) <= self.members(list, m, Some(1))
            && usize::from(b[1]) <= self.members(list, m, Some(2))
            && usize::from(b[2]) <= self.members(list, m, Some(3))
    }

    // Whether the first n places of list are an assignment.
    pub fn is_assignment(self, allowed: &[u8; TABLE_SIZE], list: &[u8; 8]) -> bool {
        self.all_allowed(allowed, list) && (0..self.blocks).all(|m| self.meets(list, m))
    }

    // Steps to the next list. False after the last one.
    fn advance(self, list: &mut [u8; 8]) -> bool {
        for t in 0..self.n {
            if usize::from(list[t]) + 1 < self.blocks {
                list[t] += 1;
                return true;
            }
            list[t] = 0;
        }
        false
    }

    // Whether some list is an assignment. There are at most 729.
    pub fn exists(self, allowed: &[u8; TABLE_SIZE]) -> bool {
        let mut list = [0; 8];
        for _ in 0..729 {
            if self.is_assignment(allowed, &list) {
                return true;
            }
            if !self.advance(&mut list) {
                return false;
            }
        }
        false
    }
}
