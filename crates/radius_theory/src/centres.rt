// Centres among the tides of a study.
ghost use Rattle.std.specs.Prelude.{◌≡◌, ◌+◌, ◌<◌, length, set};
ghost use Rattle.lists.specs.Lists.{at};
ghost use Rattle.study.specs.Limits.{cell, max_tides};
ghost use Rattle.radius_theory.specs.Arrays.{TidesIn};

use crate::input::Study;
use study::MAX_TIDES;

// Some tides of a study, those that its blocks lie around: the first `count` places of `tides`. A tide fits a byte, and the table is copied
// wherever Centres are handed back.
#[derive(Clone, Copy)]
pub struct Centres<'a> {
    pub study: Study<'a>,
    pub tides: [u8; MAX_TIDES],
    pub count: usize,
    pub ghost long: { length tides ≡ max_tides },
    pub ghost inside: { TidesIn tides count study.tides.n },
}

impl<'a> Centres<'a> {
    // None yet.
    pub fn none(study: &Study<'a>) -> Centres<'a>
        ensures same { result.study ≡ study.now }
        ensures none { result.count ≡ 0 }
    {
        Centres {
            study: *study,
            tides: [0; MAX_TIDES],
            count: 0,
        }
    }

    // None any more.
    pub fn clear(&mut self)
        ensures same { self.new.study ≡ self.old.study }
        ensures none { self.new.count ≡ 0 }
    {
        self.count = 0;
    }

    // One more.
    pub fn push(&mut self, t: usize)
        requires { (self.old.count < self.old.study.tides.n) × (t < self.old.study.tides.n) }
        ensures same { self.new.study ≡ self.old.study }
        ensures more { self.new.count ≡ self.old.count + 1 }
        ensures tides { self.new.tides ≡ set self.old.tides self.old.count t }
    {
        self.tides[self.count] = t as u8;
        self.count += 1;
    }

    // How far tide t lies from centre m.
    pub fn distance(&self, m: usize, t: usize) -> u32
        requires { (m < self.now.count) × (t < self.now.study.tides.n) }
        ensures { result ≡ cell self.now.study.distances.now (at self.now.tides m) t }
    {
        self.study.distance(usize::from(self.tides[m]), t)
    }
}
