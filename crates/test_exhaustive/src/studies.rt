// Small studies from a fixed generator: up to seven tides on a line or in a plane, with tight minima.
use crate::small::{Small, table};
use study::Minima;
use test_random::{between, next};
use validity::sum_minima;

// Seven numbers from low to high.
fn numbers(seed: u64, low: u8, high: u8) -> [u8; 7] {
    let mut drawn = [0; 7];
    let mut state = seed;
    for number in drawn.iter_mut() {
        state = next(state);
        *number = between(state, low, high);
    }
    drawn
}

fn record(b0: u8, first: u8, second: u8, third: u8) -> Minima {
    Minima {
        b0,
        b: [first, second, third, 0, 0, 0, 0, 0],
    }
}

// b0, and b's of the first k settings that are together at most b0.
fn minima(seed: u64, k: u8, b0: u8) -> Minima {
    let s1 = next(seed);
    let first = between(seed, 0, b0);
    if k < 2 {
        return record(b0, first, 0, 0);
    }
    let second = between(s1, 0, b0 - first);
    if k < 3 {
        return record(b0, first, second, 0);
    }
    record(b0, first, second, between(next(s1), 0, b0 - first - second))
}

// Up to seven tides, seven in three of ten studies, half of the studies on a line: distances tie and are 0.
fn crowded(seed: u64) -> Small {
    let s1 = next(seed);
    let s2 = next(s1);
    let s3 = next(s2);
    let k = between(s1, 1, 3);
    let x = numbers(s2 + 1000, 0, between(s2, 1, 9));
    let y = numbers(s3 + 2000, 0, between(s3, 0, 5).saturating_sub(2));
    Small {
        n: usize::from(between(seed, 0, 9).min(7)),
        k,
        minima: minima(s3 + 4000, k, between(s3 + 5000, 1, 4)),
        settings: numbers(s1 + 3000, 1, k),
        distances: table(x, y),
    }
}

// Six or seven tides farther apart, for two or three blocks: some have an assignment at one radius and none at a greater one.
fn spread(seed: u64) -> Small {
    let s1 = next(seed);
    let s2 = next(s1);
    let b0 = between(s1, 2, 3);
    let b = between(s2, 0, 1);
    Small {
        n: usize::from(between(seed, 6, 7)),
        k: 2,
        minima: record(b0, b, b, 0),
        settings: numbers(s1 + 1000, 1, 2),
        distances: table(
            numbers(s2 + 2000, 0, 30),
            numbers(s2 + 3000, 0, between(s1 + 4000, 0, 9)),
        ),
    }
}

// Whether b0 is below the sum of the b's, so that Minima raises it (document 02, 2.2).
pub fn is_below(minima: Minima) -> bool {
    usize::from(minima.b0) < sum_minima(minima.b)
}

// A b0 that is the sum of the b's, written as any number from 1 to it: the same minima to Minima, and to the plain blocker the same blocks,
// since one with each b has their sum of tides.
fn lowered(seed: u64, minima: Minima) -> Minima {
    let Minima { b0, b } = minima;
    if usize::from(b0) != sum_minima(b) {
        return minima;
    }
    Minima {
        b0: between(seed, 1, b0),
        b,
    }
}

fn drawn(seed: u64) -> Small {
    if between(seed, 0, 1) == 0 {
        return crowded(next(seed));
    }
    spread(next(seed))
}

pub fn study(seed: u64) -> Small {
    let small = drawn(seed);
    Small {
        minima: lowered(next(seed) + 6000, small.minima),
        ..small
    }
}
