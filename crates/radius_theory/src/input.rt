// A study as a search is given it.
ghost use Rattle.std.specs.Prelude.{◌≡◌, ◌<◌};
ghost use Rattle.study.specs.Limits.{cell};
ghost use Rattle.radius_theory.specs.Arrays.{DistanceRows};

use promise::tides::Tides;
use study::MAX_TIDES;

// The tides, and the distances between them: a row of MAX_TIDES places for each tide.
#[derive(Clone, Copy)]
pub struct Study<'a> {
    pub tides: Tides<'a>,
    pub distances: &'a [u32],
    pub ghost rows: { DistanceRows distances.now tides.n },
}

impl<'a> Study<'a> {
    // How far tide t lies from tide c.
    pub fn distance(&self, c: usize, t: usize) -> u32
        requires { (c < self.now.tides.n) × (t < self.now.tides.n) }
        ensures { result ≡ cell self.now.distances.now c t }
    {
        self.distances[c * MAX_TIDES + t]
    }
}
