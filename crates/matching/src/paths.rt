// The tree of alternating paths from a free slot: to each tide that one of its slots can hold, and on to the slot that holds the tide.
ghost use Rattle.std.specs.Prelude.{◌≡◌, ◌+◌, ◌<◌, ◌≤◌, set, replicate, IfSome, IfNone};
ghost use Rattle.study.specs.Limits.{max_tides};
ghost use Rattle.lists.specs.Lists.{at};
ghost use Rattle.matching.specs.Graph.{Wanted};
ghost use Rattle.matching.specs.Values.{Holds, Paired, Rooted, Scanned, upto, FreeFor, Noted, Reached, Unpairable};

use crate::graph::Graph;
use crate::pairs::Pairs;
use crate::slots::{CLASSES, class};
use study::MAX_TIDES;

// The slot that each tide was seen from and the place of each slot in the queue, MAX_TIDES where there is none, as in Pairs.
#[derive(Drop)]
pub struct Paths {
    pub from: [usize; MAX_TIDES],
    pub rank: [usize; MAX_TIDES],
    // The slots of the tree, tail of them, as they joined it.
    pub queue: [usize; MAX_TIDES],
    pub tail: usize,
}

impl Paths {
    // No tree yet.
    pub const NONE: Paths = Paths {
        from: [MAX_TIDES; MAX_TIDES],
        rank: [MAX_TIDES; MAX_TIDES],
        queue: [MAX_TIDES; MAX_TIDES],
        tail: 0,
    };

    // Begins the tree of the slot root alone.
    pub fn plant(&mut self, root: usize)
        requires { root < max_tides }
        ensures from_after { self.new.from ≡ replicate max_tides max_tides }
        ensures rank_after { self.new.rank ≡ set (replicate max_tides max_tides) root 0 }
        ensures queue_after { self.new.queue ≡ set self.old.queue 0 root }
        ensures tail_after { self.new.tail ≡ 1 }
    {
        self.from.fill(MAX_TIDES);
        self.rank.fill(MAX_TIDES);
        self.rank[root] = 0;
        self.queue[0] = root;
        self.tail = 1;
    }

    // Puts the slot h, which holds the tide t, at the end of the queue; t was seen from s.
    fn push(&mut self, s: usize, t: usize, h: usize)
        requires t_lt_max_tides { t < max_tides }
        requires h_lt_max_tides { h < max_tides }
        requires tail_lt_max_tides { self.old.tail < max_tides }
        ensures from_after { self.new.from ≡ set self.old.from t s }
        ensures rank_after { self.new.rank ≡ set self.old.rank h self.old.tail }
        ensures queue_after { self.new.queue ≡ set self.old.queue self.old.tail h }
        ensures tail_after { self.new.tail ≡ self.old.tail + 1 }
    {
        self.from[t] = s;
        self.rank[h] = self.tail;
        self.queue[self.tail] = h;
        self.tail += 1;
    }

    // Whether the tide t is not seen yet and the slot s can hold it.
    fn wants(&self, graph: &Graph, s: usize, t: usize) -> bool
        requires s_lt_slots { s < graph.now.layout.now.slots }
        requires t_lt_tides { t < graph.now.tides.n }
        ensures { Wanted (Holds graph.now) graph.now.layout.now.slots s t self.now.from result }
    {
        self.from[t] >= graph.layout.slots && graph.can_hold(s, t)
    }

    // Looks at each tide that the slot s can hold and that is not seen yet. A free one ends the search; the holder of any other joins
    // the queue.
    fn scan(&mut self, graph: &Graph, pairs: &Pairs, s: usize) -> Option<usize>
        requires paired { Paired graph.now pairs.now }
        requires s_lt_slots { (s < graph.now.layout.now.slots) × (at self.old.rank s < max_tides) }
        requires tree { Rooted graph.now pairs.now self.old }
        ensures scanned { Scanned graph.now pairs.now s (upto result) self.old self.new }
        ensures free { IfSome result (FreeFor graph.now pairs.now s) }
    {
        for t in 0..graph.tides.n {
            if self.wants(graph, s, t) {
                let h = pairs.slot[t];
                if h >= graph.layout.slots {
                    return Some(t);
                }
                self.push(s, t, h);
            }
        }
        None
    }

    // Scans the slot s, unless a slot of its block that takes the same tides or any was scanned before: then every tide that s can hold
    // is seen. Each block and kind of which a slot was scanned is marked.
    fn visit(
        &mut self,
        graph: &Graph,
        pairs: &Pairs,
        mark: &mut [bool; CLASSES],
        s: usize,
    ) -> Option<usize>
        requires paired { Paired graph.now pairs.now }
        requires s_lt_slots { (s < graph.now.layout.now.slots) × (at self.old.rank s < max_tides) }
        requires tree { Rooted graph.now pairs.now self.old }
        requires marked { Noted graph.now mark.old self.old }
        ensures scanned { Scanned graph.now pairs.now s (upto result) self.old self.new }
        ensures free { IfSome result (FreeFor graph.now pairs.now s) }
        ensures marked { IfNone result (Noted graph.now mark.new self.new) }
    {
        let m = graph.layout.owner[s];
        let own = class(m, graph.layout.kind[s]);
        if mark[class(m, 0)] || mark[own] {
            return None;
        }
        mark[own] = true;
        self.scan(graph, pairs, s)
    }

    // Grows the tree from its root until a free tide is met, which is handed back behind the slot that it was seen from, or every slot
    // in the queue is scanned.
    pub fn grow(&mut self, graph: &Graph, pairs: &Pairs) -> Option<(usize, usize)>
        requires paired { Paired graph.now pairs.now }
        requires tree { Rooted graph.now pairs.now self.old }
        ensures front { at self.new.queue 0 ≡ at self.old.queue 0 }
        ensures reached { IfSome result (λ r. Reached graph.now pairs.now self.new r.0 r.1) }
        ensures unpairable { IfNone result (Unpairable graph.now) }
    {
        let mut mark = [false; CLASSES];
        let mut head = 0;
        while head < self.tail {
            let s = self.queue[head];
            if let Some(t) = self.visit(graph, pairs, &mut mark, s) {
                return Some((s, t));
            }
            head += 1;
        }
        None
    }
}
