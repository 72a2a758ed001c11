// A study that can be divided into blocks, and the least radius at which it can.
ghost use Rattle.std.specs.Prelude.{◌≡◌, ◌<◌};
ghost use Rattle.lists.specs.Lists.{TailKept};
ghost use Rattle.promise.specs.Met.{met};
ghost use Rattle.radius_theory.specs.Arrays.{ValidArrays};
ghost use Rattle.radius_search.specs.Inputs.{Room};
ghost use Rattle.radius_search.specs.Ascents.{Least};

use crate::bound::lower_bound;
use crate::centres::refill;
use crate::next::{first_from, next_in_pairs};
use crate::stretch::Stretch;
use radius_theory::centres::Centres;
use radius_theory::input::Study;

// A study with a tide in it, whose distances obey the rules and whose tides all together meet the minima.
#[derive(Clone, Copy)]
pub struct Problem<'a> {
    pub study: Study<'a>,
    pub ghost tides: { 0 < study.tides.n },
    pub ghost valid: { ValidArrays study.distances.now study.tides.n (met study.tides) },
}

// A radius, and its centres.
#[derive(Clone, Copy)]
pub struct LeastRadius<'a> {
    pub radius: u32,
    pub centres: Centres<'a>,
}

impl<'a> Problem<'a> {
    // The least radius with an assignment. The table is that of the radius, and list is an assignment.
    pub fn least_radius(&self, allowed: &mut [u8], list: &mut [u8]) -> LeastRadius<'a>
        requires { Room self.now.study.tides.n allowed.old list.old }
        ensures same { result.centres.study ≡ self.now.study }
        ensures least { let study = self.now.study in Least study.distances.now study.tides.n (met study.tides)
            result.radius result.centres.count result.centres.tides allowed.old allowed.new list.new }
        ensures tail_kept { TailKept self.now.study.tides.n list.old list.new }
    {
        let n = self.study.tides.n;
        let b0 = usize::from(self.study.tides.minima.b0);
        let low = lower_bound(&self.study);
        let mut g = first_from(&self.study, low);
        let mut centres = Centres::none(&self.study);
        loop {
            refill(&mut centres, g);
            let limit = next_in_pairs(&centres, g);
            if centres.count * b0 <= n {
                let stretch = Stretch {
                    centres: &centres,
                    start: g,
                    limit,
                };
                if let Some(radius) = stretch.ascend(allowed, list) {
                    return LeastRadius { radius, centres };
                }
            }
            g = limit;
        }
    }
}
