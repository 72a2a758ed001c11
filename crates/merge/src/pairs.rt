// Reasons 17 and 16 of a merge: no pair of shared tides is named, or the two datasets don't agree on the pairs.
ghost use Rattle.std.specs.Prelude.{◌≡◌, ◌+◌, ◌<◌, eqb, length};
ghost use Rattle.lists.specs.Lists.{between, every, at};
ghost use Rattle.validity.specs.View.{seen};
ghost use Rattle.access.specs.Passed.{Passed};
ghost use Rattle.merge.specs.Merge.{shared, consistent, agreeing, agree};
ghost use Rattle.merge.specs.Lent.{of_states, of_studies};
ghost use Rattle.merge.specs.Sources.{Named};

use crate::source::{Sources, distance, setting, tide_of};

// Whether no pair is named.
pub fn names_none(firsts: &[u8], seconds: &[u8]) -> bool
    ensures { result ≡ eqb (shared firsts.now seconds.now).pairs 0 }
{
    if firsts.len() != 0 {
        return false;
    }
    seconds.len() == 0
}

// Whether number q of a list is that of one of n tides.
fn is_tide(list: &[u8], q: usize, n: usize) -> bool
    requires { q < length list.now }
    ensures { result ≡ between 1 n (at list.now q) }
{
    let number = usize::from(list[q]);
    1 <= number && number <= n
}

// Whether pair q names other tides than pair p, as far from those in the one dataset as in the other.
fn is_consistent(sources: &Sources, q: usize, p: usize) -> bool
    requires named { of_states Named sources.now (q + 1) }
    requires p_lt_q { p < q }
    ensures { result ≡ of_studies consistent sources.now q p }
{
    let Sources {
        first,
        second,
        firsts,
        seconds,
    } = *sources;
    if firsts[p] == firsts[q] {
        return false;
    }
    if seconds[p] == seconds[q] {
        return false;
    }
    let x = distance(first, tide_of(firsts, p), tide_of(firsts, q));
    let y = distance(second, tide_of(seconds, p), tide_of(seconds, q));
    x == y
}

// Whether pair q is consistent with each pair before it.
#[tactic(auto, using(lists::proofs::Scans::scanning))]
fn all_consistent(sources: &Sources, q: usize) -> bool
    requires { of_states Named sources.now (q + 1) }
    ensures { result ≡ every q (of_studies consistent sources.now q) }
{
    for p in 0..q {
        if !is_consistent(sources, q, p) {
            return false;
        }
    }
    true
}

// Whether pair q names tides that are there and of one setting, and is consistent with the pairs before it, which name tides that are there.
fn pair_agrees(sources: &Sources, q: usize) -> bool
    requires named { of_states Named sources.now q }
    requires q_in_bounds { (q < length sources.now.firsts.now) × (q < length sources.now.seconds.now) }
    ensures { result ≡ of_studies agreeing sources.now q }
{
    let Sources {
        first,
        second,
        firsts,
        seconds,
    } = *sources;
    if !is_tide(firsts, q, first.dataset.n) {
        return false;
    }
    if !is_tide(seconds, q, second.dataset.n) {
        return false;
    }
    let x = setting(first, tide_of(firsts, q));
    let y = setting(second, tide_of(seconds, q));
    if x != y {
        return false;
    }
    all_consistent(sources, q)
}

// Whether the datasets have one k, and all pairs agree.
pub fn agree(sources: &Sources) -> bool
    requires { Passed (seen sources.now.first) × Passed (seen sources.now.second) }
    ensures { result ≡ of_studies agree sources.now }
{
    let m = sources.firsts.len();
    if sources.first.dataset.k != sources.second.dataset.k {
        return false;
    }
    if sources.seconds.len() != m {
        return false;
    }
    for q in 0..m {
        if !pair_agrees(sources, q) {
            return false;
        }
    }
    true
}
