// Document 01's cases 1 to 6 and studies for document 02, 2.6, through the calls. A place of a list past the last tide is 0 here.
use crate::comparing::{agrees, blocked, is_list};
use blocking::judge::judge;
use study::{Figures, Minima, Refusal};
use test_exhaustive::exhaustive;
use test_exhaustive::exhaustive::Order;
use test_exhaustive::small::{Small, table};
use test_exhaustive::stored::has_duplicate;
use test_tools::tally::Tally;

// Tides in a plane, k = 1 and each b 0.
fn plane(n: usize, x: [u8; 7], y: [u8; 7], b0: u8) -> Small {
    Small {
        n,
        k: 1,
        minima: Minima { b0, b: [0; 8] },
        settings: [1; 7],
        distances: table(x, y),
    }
}

pub fn line(n: usize, positions: [u8; 7], b0: u8) -> Small {
    plane(n, positions, [0; 7], b0)
}

// What Block is to give: a diameter past the last block is 0.
#[derive(Clone, Copy)]
struct Expected {
    figures: Figures,
    diameters: [u32; 3],
    list: [u8; 7],
}

fn figures(blocks: usize, radius: u32, widest: u32) -> Figures {
    Figures {
        blocks,
        radius,
        widest,
    }
}

// Answer, list and diameters; and the plain blocker gives the same.
fn blocks(so_far: Tally, small: Small, expected: Expected) -> Tally {
    let Ok(given) = blocked(small) else {
        return so_far.see(false);
    };
    let [first, second, third, ..] = given.records;
    let diameters = [first.diameter, second.diameter, third.diameter];
    so_far
        .see(given.answer == Ok(expected.figures))
        .see(is_list(given.list, small.n, expected.list))
        .see(diameters == expected.diameters)
        .see(agrees(small, exhaustive::block(small)))
}

// The list and the records of a refusal are as before, by `agrees`.
fn refused(so_far: Tally, small: Small, why: Refusal) -> Tally {
    let Ok(given) = blocked(small) else {
        return so_far.see(false);
    };
    so_far
        .see(given.answer == Err(why))
        .see(agrees(small, exhaustive::block(small)))
}

fn has_assignment(small: Small, g: u32) -> bool {
    exhaustive::assignment(small, g, Order::Preference).is_some()
}

// Judge's answer to the list's first n numbers.
fn judged(small: Small, list: [u8; 7]) -> Result<Option<u32>, Refusal> {
    let book = small.book()?;
    judge(book.view(), &list[..small.n.min(7)])
}

pub fn case_1() -> Tally {
    let small = line(6, [2, 5, 0, 1, 3, 7, 0], 3);
    let t = blocks(
        Tally::default(),
        small,
        Expected {
            figures: figures(2, 2, 4),
            diameters: [2, 4, 0],
            list: [1, 2, 1, 1, 2, 2, 0],
        },
    );
    t.see(!has_assignment(small, 3))
        .see(has_assignment(small, 4))
}

// Two settings, one tide of each to a block.
fn pairs(b0: u8) -> Small {
    Small {
        n: 4,
        k: 2,
        minima: Minima {
            b0,
            b: [1, 1, 0, 0, 0, 0, 0, 0],
        },
        settings: [1, 2, 1, 2, 0, 0, 0],
        distances: table([0, 1, 10, 11, 0, 0, 0], [0; 7]),
    }
}

// With b0 = 1, which Minima takes as 2 (document 02, 2.2), Block gives the same.
pub fn case_2() -> Tally {
    let expected = Expected {
        figures: figures(2, 1, 1),
        diameters: [1, 1, 0],
        list: [1, 1, 2, 2, 0, 0, 0],
    };
    blocks(
        blocks(Tally::default(), pairs(2), expected),
        pairs(1),
        expected,
    )
}

// Cases 3, 4 and 5 hold a duplicate, so that they come in by file (document 02, 2.8).
pub fn case_3() -> Tally {
    let small = line(4, [2, 0, 2, 4, 0, 0, 0], 2);
    let t = blocks(
        Tally::default(),
        small,
        Expected {
            figures: figures(1, 2, 4),
            diameters: [4, 0, 0],
            list: [1, 1, 1, 1, 0, 0, 0],
        },
    );
    t.see(judged(small, [1, 1, 2, 2, 0, 0, 0]) == Ok(Some(2)))
        .see(has_duplicate(small))
}

pub fn case_4() -> Tally {
    let small = line(5, [0, 10, 5, 5, 5, 0, 0], 2);
    blocks(
        Tally::default().see(has_duplicate(small)),
        small,
        Expected {
            figures: figures(2, 5, 5),
            diameters: [5, 5, 0],
            list: [1, 2, 1, 1, 2, 0, 0],
        },
    )
}

pub fn case_5() -> Tally {
    let small = line(3, [0; 7], 1);
    let t = blocks(
        Tally::default().see(has_duplicate(small)),
        small,
        Expected {
            figures: figures(1, 0, 0),
            diameters: [0, 0, 0],
            list: [1, 1, 1, 0, 0, 0, 0],
        },
    );
    blocks(
        t,
        line(2, [0, 5, 0, 0, 0, 0, 0], 1),
        Expected {
            figures: figures(2, 0, 0),
            diameters: [0, 0, 0],
            list: [1, 2, 0, 0, 0, 0, 0],
        },
    )
}

pub fn case_6() -> Tally {
    let t = refused(
        Tally::default(),
        line(2, [0, 5, 0, 0, 0, 0, 0], 3),
        Refusal::TooFewTides,
    );
    blocks(
        t,
        line(2, [0, 5, 0, 0, 0, 0, 0], 2),
        Expected {
            figures: figures(1, 5, 5),
            diameters: [5, 0, 0],
            list: [1, 1, 0, 0, 0, 0, 0],
        },
    )
}

// Three blocks of two tides. Tide 4 is at 30 from block 2's centre, at 50 from block 3's and at 60 from block 1's. With it in block 2, as
// tide 3 is, only tide 5 would be left for blocks 1 and 3; so it gets block 3, and tide 5 the farthest of its three, block 1. By number the
// list would be 1 2 1 2 3 3.
fn second_choice(so_far: Tally) -> Tally {
    blocks(
        so_far,
        plane(6, [0, 50, 40, 50, 40, 30, 0], [20, 0, 0, 30, 40, 60, 0], 2),
        Expected {
            figures: figures(3, 60, 60),
            diameters: [60, 10, 50],
            list: [1, 2, 2, 3, 1, 3, 0],
        },
    )
}

// Document 02, 2.6. In the first study tides 3 and 4 are at 1 from block 2's centre and at 40 from block 1's; by number the list would be
// 1 2 1 2. In the second tide 4 is at 1 from block 1's centre; by number the list would be 1 2 1 1 2 2.
pub fn nearest_first() -> Tally {
    let one = blocks(
        Tally::default(),
        line(4, [0, 41, 40, 40, 0, 0, 0], 2),
        Expected {
            figures: figures(2, 40, 40),
            diameters: [40, 1, 0],
            list: [1, 2, 2, 1, 0, 0, 0],
        },
    );
    let two = blocks(
        one,
        line(6, [0, 41, 40, 1, 40, 40, 0], 3),
        Expected {
            figures: figures(2, 40, 40),
            diameters: [40, 1, 0],
            list: [1, 2, 2, 1, 2, 1, 0],
        },
    );
    second_choice(two)
}
