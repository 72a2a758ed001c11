// What is read of the datasets that are merged, and of the lists that name their shared tides.
ghost use Rattle.std.specs.Prelude.{◌≡◌, ◌-◌, ◌≤◌, ◌<◌, length};
ghost use Rattle.lists.specs.Lists.{at};
ghost use Rattle.study.specs.Limits.{max_distance};
ghost use Rattle.study.specs.Study.{tide, distance};
ghost use Rattle.validity.specs.Memory.{study_of};
ghost use Rattle.validity.specs.View.{seen};
ghost use Rattle.access.specs.Passed.{Passed};

use study::MAX_TIDES;
use validity::view::View;

// The two datasets, and the lists that name their shared tides: pair q is tide firsts[q] of the first and tide seconds[q] of the second.
#[derive(Clone, Copy)]
pub struct Sources<'a> {
    pub first: View<'a>,
    pub second: View<'a>,
    pub firsts: &'a [u8],
    pub seconds: &'a [u8],
}

// The tide of number q of a list, from 0.
pub fn tide_of(list: &[u8], q: usize) -> usize
    requires { (q < length list.now) × (1 ≤ at list.now q) }
    ensures { result ≡ at list.now q - 1 }
{
    usize::from(list[q]) - 1
}

// The distance of two tides of a dataset.
pub fn distance(view: View, t: usize, u: usize) -> u32
    requires passed { Passed (seen view) }
    requires t_lt_n { (t < view.dataset.n) × (u < view.dataset.n) }
    ensures { (result ≡ distance (study_of (seen view.entry)) t u) × (result ≤ max_distance) }
{
    view.distances[t * MAX_TIDES + u]
}

// The setting of a tide of a dataset.
pub fn setting(view: View, t: usize) -> u8
    requires passed { Passed (seen view) }
    requires t_lt_n { t < view.dataset.n }
    ensures { result ≡ (tide (study_of (seen view.entry)) t).setting }
{
    view.settings[t]
}
