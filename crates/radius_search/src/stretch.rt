// Radii at which the centres stay: there, and only there, existence is monotone, and the least radius is found by bisection.
ghost use Rattle.std.specs.Prelude.{◌≡◌, ◌-◌, ◌<◌, ◌≤◌, length, IfSome, unwrap_or};
ghost use Rattle.lists.specs.Lists.{TailKept};
ghost use Rattle.promise.specs.Met.{met};
ghost use Rattle.radius_theory.specs.Arrays.{ValidArrays};
ghost use Rattle.radius_theory.specs.Posed.{posed};
ghost use Rattle.radius_theory.specs.Radii.{Lowest, Ahead};
ghost use Rattle.radius_search.specs.Inputs.{Room};
ghost use Rattle.radius_search.specs.Ascents.{Steady, Some, RadiusTried, Bisected, Ascent};

use crate::table::allow;
use matching::search;
use radius_theory::centres::Centres;

// The radii from start up to limit: at each of them these are the centres.
#[derive(Clone, Copy)]
pub struct Stretch<'c, 'a> {
    pub centres: &'c Centres<'a>,
    pub start: u32,
    pub limit: u32,
    pub ghost order: { start < limit },
    pub ghost tides: { 0 < centres.now.study.tides.n },
    pub ghost valid: { ValidArrays centres.now.study.distances.now centres.now.study.tides.n (met centres.now.study.tides) },
    pub ghost steady: { Steady centres.now.study.distances.now centres.now.study.tides.n start limit centres.now.count centres.now.tides },
}

impl<'c, 'a> Stretch<'c, 'a> {
    // Whether there is an assignment at g, which is then left in list. The table is that of g.
    fn assignable(&self, g: u32, allowed: &mut [u8], list: &mut [u8]) -> bool
        requires within { (self.now.start ≤ g) × (g < self.now.limit) }
        requires room { Room self.now.centres.now.study.tides.n allowed.old list.old }
        ensures radius_tried { let study = self.now.centres.now.study in RadiusTried study.distances.now study.tides.n (met study.tides)
            self.now.centres.now.tides self.now.centres.now.count g allowed.old allowed.new list.new result }
        ensures tail_kept { TailKept self.now.centres.now.study.tides.n list.old list.new }
    {
        allow(self.centres, g, allowed);
        search(self.centres.study.tides, self.centres.count, allowed, list)
    }

    // The least radius with an assignment, where there is one at limit - 1: while the centres stay, a greater radius only allows more.
    fn bisect(&self, allowed: &mut [u8], list: &mut [u8]) -> u32
        requires some { Some (posed self.now.centres.now.study) (self.now.limit - 1) }
        requires room { Room self.now.centres.now.study.tides.n allowed.old list.old }
        ensures bisected { let study = self.now.centres.now.study in Bisected study.distances.now study.tides.n (met study.tides)
            self.now.start self.now.limit result }
        ensures allowed_len_unchanged { length allowed.new ≡ length allowed.old }
        ensures tail_kept { TailKept self.now.centres.now.study.tides.n list.old list.new }
    {
        let mut low = self.start;
        let mut high = self.limit - 1;
        while low < high {
            let mid = low + (high - low) / 2;
            if self.assignable(mid, allowed, list) {
                high = mid;
            } else {
                low = mid + 1;
            }
        }
        low
    }

    // The least radius with an assignment, which is then left in list, where there is one.
    pub fn ascend(&self, allowed: &mut [u8], list: &mut [u8]) -> Option<u32>
        requires lowest { Lowest (posed self.now.centres.now.study) self.now.start }
        requires ahead { Ahead (posed self.now.centres.now.study) self.now.limit }
        requires room { Room self.now.centres.now.study.tides.n allowed.old list.old }
        ensures ascent { let study = self.now.centres.now.study in Ascent study.distances.now study.tides.n (met study.tides)
            self.now.centres.now.tides self.now.centres.now.count self.now.start self.now.limit (unwrap_or result self.now.limit)
            allowed.old allowed.new list.new }
        ensures below { IfSome result (λ r. r < self.now.limit) }
        ensures tail_kept { TailKept self.now.centres.now.study.tides.n list.old list.new }
    {
        if !self.assignable(self.limit - 1, allowed, list) {
            return None;
        }
        let g = self.bisect(allowed, list);
        // there is one: once more, for its table and list
        self.assignable(g, allowed, list);
        Some(g)
    }
}
