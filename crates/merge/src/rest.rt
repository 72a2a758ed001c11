// The second dataset's tides that are in no pair.
ghost use Rattle.std.specs.Prelude.{◌≡◌, ◌≤◌, length};
ghost use Rattle.study.specs.Limits.{max_tides};
ghost use Rattle.merge.specs.Merge.{shared, unshared};
ghost use Rattle.merge.specs.Sources.{NumberPairs, RestIn};

use crate::source::tide_of;
use study::MAX_TIDES;

// Tides in order, each in a byte; those past the count are free.
#[derive(Clone, Copy)]
pub struct Rest {
    pub tides: [u8; MAX_TIDES],
    pub count: usize,
}

// Whether tide j is in no pair.
fn is_unshared(firsts: &[u8], seconds: &[u8], j: usize) -> bool
    requires { NumberPairs firsts.now seconds.now }
    ensures { result ≡ unshared (shared firsts.now seconds.now) j }
{
    for q in 0..firsts.len() {
        if tide_of(seconds, q) == j {
            return false;
        }
    }
    true
}

// Those of n tides that are in no pair.
pub fn find_rest(firsts: &[u8], seconds: &[u8], n: usize) -> Rest
    requires number_pairs { NumberPairs firsts.now seconds.now }
    requires n_le_max_tides { n ≤ max_tides }
    ensures { RestIn (shared firsts.now seconds.now) n result.count result.tides }
{
    let mut tides = [0u8; MAX_TIDES];
    let mut count = 0;
    for j in 0..n {
        if is_unshared(firsts, seconds, j) {
            tides[count] = j as u8;
            count += 1;
        }
    }
    Rest { tides, count }
}
