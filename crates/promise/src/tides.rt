// The tides that a search is of.
ghost use Rattle.std.specs.Prelude.{◌≤◌};
ghost use Rattle.study.specs.Limits.{max_tides};
ghost use Rattle.promise.specs.Promise.{Able};

use study::Minima;

// How many tides there are, each tide's setting, and the minima that each block must meet.
#[derive(Clone, Copy)]
pub struct Tides<'a> {
    pub n: usize,
    pub settings: &'a [u8],
    pub minima: Minima,
    pub ghost few: { n ≤ max_tides },
    pub ghost able: { Able minima n settings.now },
}
