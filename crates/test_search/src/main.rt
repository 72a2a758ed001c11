// Tables of up to six tides and three blocks from a fixed generator: the answer of the search is
// compared with plain enumeration of every list, and a list that it leaves on yes is checked. Each
// table is searched from a hint of any kind, and again, from the list that is left, with one pair
// more allowed.
#![tactic(auto)]

mod plain;

ghost use Rattle.std.specs.Prelude.{◌≡◌, ◌≤◌, true};
ghost use Rattle.test_search.specs.Ranges.{AllBetween, Modest};

use crate::plain::Question;
use matching::search;
use promise::tides::Tides;
use std::io;
use std::io::Write;
use study::{MAX_TIDES, Minima, TABLE_SIZE};
use test_random::{draw, next};

// Fills bytes with numbers from low to high.
fn fill(seed: u64, bytes: &mut [u8], low: u8, high: u8) -> u64
    requires { low ≤ high }
{
    let k = u64::from(high - low) + 1;
    let mut state = seed;
    for byte in bytes.iter_mut() {
        state = next(state);
        *byte = low + draw(state, k);
    }
    state
}

// Whether the settings are 1 to 8.
fn valid(settings: &[u8; 6]) -> bool
    ensures { result ≡ true → AllBetween 1 8 settings.now }
{
    for t in 0..6 {
        if settings[t] < 1 {
            return false;
        }
        if settings[t] > 8 {
            return false;
        }
    }
    true
}

// Minima of at most two tides for a block, of the settings 1 to 3.
#[tactic(auto, using(crate::proofs::Asking::modest))]
fn drawn_minima(s1: u64, s2: u64, s3: u64) -> Minima
    ensures { Modest result }
{
    let b0 = draw(s2, 3);
    let x = draw(s3, u64::from(b0) + 1);
    let y = draw(next(s3), u64::from(b0 - x) + 1);
    let z = draw(s1, u64::from(b0 - x - y) + 1);
    Minima {
        b0,
        b: [x, y, z, 0, 0, 0, 0, 0],
    }
}

fn drawn<'a>(seed: u64, s1: u64, s2: u64, s3: u64, settings: &'a [u8; 6]) -> Question<'a>
    requires { AllBetween 1 8 settings.now }
{
    Question {
        n: usize::from(draw(seed, 7)),
        blocks: usize::from(draw(s1, 4)),
        minima: drawn_minima(s1, s2, s3),
        settings,
    }
}

// The search's answer, and the list that it leaves.
fn asked(q: Question, allowed: &[u8; TABLE_SIZE], list: &mut [u8; 8]) -> bool {
    let Question {
        n,
        blocks,
        minima,
        settings,
    } = q;
    let tides = Tides {
        n,
        settings,
        minima,
    };
    search(tides, blocks, allowed, list)
}

// One pair more, which may be allowed already.
fn allow_one(allowed: &mut [u8; TABLE_SIZE], s5: u64, s6: u64) {
    let t = usize::from(draw(s5, 6));
    let m = usize::from(draw(s6, 3));
    allowed[m * MAX_TIDES + t] = 9;
}

// The answer, if it and the list that was left are right. The two places past the tides held last.
fn judged(
    found: bool,
    q: Question,
    allowed: &[u8; TABLE_SIZE],
    list: &[u8; 8],
    last: u8,
) -> Option<bool> {
    if list[6] != last {
        return None;
    }
    if list[7] != last {
        return None;
    }
    if found != q.exists(allowed) {
        return None;
    }
    if found && !q.is_assignment(allowed, list) {
        return None;
    }
    Some(found)
}

// One table from the seed, searched from a hint, or again from the list that was left with one pair
// more; judged as above.
fn trial(seed: u64, again: bool) -> Option<bool> {
    let s1 = next(seed);
    let s2 = next(s1);
    let s3 = next(s2);
    let mut settings = [0; 6];
    let mut allowed = [0; TABLE_SIZE];
    let mut list = [0; 8];
    let s4 = fill(s3, &mut settings, 1, 3);
    let s5 = fill(s4, &mut allowed, 0, 1 + draw(s2, 6));
    let s6 = fill(s5, &mut list, 0, 2 + draw(s4, 254));
    let last = draw(s6, 256);
    list[6] = last;
    list[7] = last;
    if !valid(&settings) {
        return None;
    }
    let q = drawn(seed, s1, s2, s3, &settings);
    let mut found = asked(q, &allowed, &mut list);
    if again {
        allow_one(&mut allowed, s5, s6);
        found = asked(q, &allowed, &mut list);
    }
    judged(found, q, &allowed, &list, last)
}

// How many answers were a right yes, a right no, and wrong.
#[derive(Clone, Copy, Default)]
struct Counts {
    yes: u64,
    no: u64,
    wrong: u64,
}

impl Counts {
    // One more judged answer.
    fn see(&mut self, answer: Option<bool>) {
        match answer {
            Some(true) => self.yes = self.yes.saturating_add(1),
            Some(false) => self.no = self.no.saturating_add(1),
            None => self.wrong = self.wrong.saturating_add(1),
        }
    }
}

fn main(rt: HostRuntime) -> io::Result<()> {
    let mut counts = Counts::default();
    let mut seed = 20240229;
    for _ in 0..4000 {
        seed = next(seed);
        counts.see(trial(seed, false));
        counts.see(trial(seed, true));
    }
    let Counts { yes, no, wrong } = counts;
    let mut out = rt.stdout();
    writeln!(out, "yes {yes}")?;
    writeln!(out, "no {no}")?;
    writeln!(out, "wrong {wrong}")
}
