// A plain blocker for up to seven tides: every candidate radius, and at each every way to give the tides a block.
use crate::centres::Centres;
use crate::partitions::meets;
use crate::small::{Small, at};
use study::Refusal;

// The order in which each tide takes the blocks: by its preference (document 02, 2.6), or by their numbers, as it was before.
#[derive(Clone, Copy)]
pub enum Order {
    Preference,
    Number,
}

// The block that has a place, from 1, in tide t's order, or 0 where none has it; past the n tides the place itself.
fn block_at(small: Small, centres: Centres, order: Order, t: usize, place: u8) -> u8 {
    if small.n <= t {
        return place;
    }
    match order {
        Order::Preference => centres.choice(small, t, place).unwrap_or(0),
        Order::Number => place,
    }
}

// The list of blocks that a list of places stands for.
fn blocks_at(small: Small, centres: Centres, order: Order, places: [u8; 7]) -> [u8; 7] {
    let mut list = [0; 7];
    for t in 0..7 {
        list[t] = block_at(small, centres, order, t, places[t]);
    }
    list
}

// The first tide that is farther than g from its block's centre.
fn first_far(small: Small, g: u32, centres: Centres, list: [u8; 7]) -> Option<usize> {
    (0..small.n).find(|t| !centres.near(small, g, *t, at(list, *t)))
}

fn all_meet(small: Small, list: [u8; 7], last: u8) -> bool {
    (1..=last).all(|m| meets(small, list, m))
}

// The last of all lists that begin with the same t + 1 numbers.
fn last_after(list: [u8; 7], t: usize, last: u8) -> [u8; 7] {
    let mut next = list;
    for i in 0..7 {
        if t < i {
            next[i] = last;
        }
    }
    next
}

// The next list in dictionary order, tide 1 first, of numbers from 1 to last; past the n tides they are 1.
fn next_list(list: [u8; 7], n: usize, last: u8) -> Option<[u8; 7]> {
    let mut next = list;
    for i in (0..7).rev() {
        if i < n && next[i] < last {
            next[i] += 1;
            return Some(next);
        }
        next[i] = 1;
    }
    None
}

// The assignment at g whose list of places, each in its tide's order, is the first in dictionary order. Of the lists, at most 7^7, those
// are passed over that begin as one in which a tide is too far from its centre.
pub fn assignment(small: Small, g: u32, order: Order) -> Option<[u8; 7]> {
    let centres = Centres::at_radius(small, g);
    let last = centres.count;
    let mut places = [1; 7];
    for _ in 0..823543 {
        let list = blocks_at(small, centres, order, places);
        let passed = match first_far(small, g, centres, list) {
            Some(t) => last_after(places, t, last),
            None if all_meet(small, list, last) => return Some(list),
            None => places,
        };
        places = next_list(passed, small.n, last)?;
    }
    None
}

// The lesser of a distance so far, if there is one, and x.
fn lesser(so_far: Option<u32>, x: u32) -> Option<u32> {
    match so_far {
        Some(least) => Some(least.min(x)),
        None => Some(x),
    }
}

// The least distance above g.
fn next_candidate(small: Small, g: u32) -> Option<u32> {
    let mut least = None;
    for i in 0..small.n {
        for j in 0..small.n {
            let x = small.distance(i, j);
            if g < x {
                least = lesser(least, x);
            }
        }
    }
    least
}

// The radius and the list.
#[derive(Clone, Copy)]
pub struct Plain {
    pub radius: u32,
    pub list: [u8; 7],
}

// The least candidate with an assignment: 0, or one of at most 21 distances.
pub fn block(small: Small) -> Result<Plain, Refusal> {
    if small.n == 0 {
        return Err(Refusal::NoTides);
    }
    let mut radius = 0;
    for _ in 0..22 {
        if let Some(list) = assignment(small, radius, Order::Preference) {
            return Ok(Plain { radius, list });
        }
        let Some(next) = next_candidate(small, radius) else {
            return Err(Refusal::TooFewTides);
        };
        radius = next;
    }
    Err(Refusal::TooFewTides)
}

// Whether some candidate above g has no assignment.
pub fn gap_above(small: Small, g: u32) -> bool {
    let mut radius = g;
    for _ in 0..22 {
        let Some(next) = next_candidate(small, radius) else {
            return false;
        };
        if assignment(small, next, Order::Preference).is_none() {
            return true;
        }
        radius = next;
    }
    false
}
