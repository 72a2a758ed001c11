// A matching of slots with tides.
ghost use Rattle.std.specs.Prelude.{◌≡◌, ◌<◌, ◌≤◌, set, replicate, IfSome, IfNone};
ghost use Rattle.study.specs.Limits.{max_tides};
ghost use Rattle.lists.specs.Lists.{at};
ghost use Rattle.matching.specs.Matching.{freed};

use study::MAX_TIDES;

// The tide that each slot holds and the slot that holds each tide, MAX_TIDES where there is none: half as wide as an Option. The graph
// comes with each call and is no field: a method that writes would have to say that it stays.
#[derive(Drop)]
pub struct Pairs {
    pub tide: [usize; MAX_TIDES],
    pub slot: [usize; MAX_TIDES],
}

impl Pairs {
    // No slot holds a tide.
    pub const NONE: Pairs = Pairs {
        tide: [MAX_TIDES; MAX_TIDES],
        slot: [MAX_TIDES; MAX_TIDES],
    };

    // Gives the slot s the free tide t, and hands back the tide that s held, now free.
    pub fn give(&mut self, s: usize, t: usize, tides: usize) -> Option<usize>
        requires s_lt_max_tides { s < max_tides }
        requires t_lt_max_tides { t < max_tides }
        requires tides_le_max_tides { tides ≤ max_tides }
        ensures held { IfSome result (λ o. (o ≡ at self.old.tide s) × (o < tides)) }
        ensures free { IfNone result (tides ≤ at self.old.tide s) }
        ensures tide_after { self.new.tide ≡ set self.old.tide s t }
        ensures slot_after { self.new.slot ≡ freed self.old.slot s t (at self.old.tide s) tides }
    {
        let o = self.tide[s];
        self.tide[s] = t;
        self.slot[t] = s;
        if o >= tides {
            return None;
        }
        self.slot[o] = MAX_TIDES;
        Some(o)
    }
}
