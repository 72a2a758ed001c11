// A first matching, made from a hint of each tide's block. The hint may be anything.
ghost use Rattle.std.specs.Prelude.{◌<◌, ◌≤◌, length};
ghost use Rattle.study.specs.Limits.{max_tides, max_settings};
ghost use Rattle.matching.specs.Values.{Paired};

use crate::graph::Graph;
use crate::pairs::Pairs;
use crate::slots::{CLASSES, class};
use study::MAX_TIDES;

impl Pairs {
    // Gives the tide t, where it has no slot yet, the next slot of block m and kind k, where there is one that can hold it.
    fn take_next(&mut self, graph: &Graph, next: &mut [u8; CLASSES], m: usize, k: u8, t: usize)
        requires paired { Paired graph.now self.old }
        requires m_lt_max_tides { (m < max_tides) × (k ≤ max_settings) × (t < graph.now.tides.n) }
        ensures { Paired graph.now self.new }
    {
        let row = class(m, k);
        let s = usize::from(next[row]);
        if s >= graph.layout.slots || self.slot[t] < graph.layout.slots {
            return;
        }
        if graph.layout.owner[s] != m || graph.layout.kind[s] != k || !graph.can_hold(s, t) {
            return;
        }
        self.give(s, t, graph.tides.n);
        next[row] = (s + 1) as u8;
    }

    // Takes the hint: each tide takes a slot of its setting in its block, or else one of any setting.
    pub fn start(&mut self, graph: &Graph, hint: &[u8])
        requires paired { Paired graph.now self.old }
        requires n_in_bounds { graph.now.tides.n ≤ length hint.now }
        ensures { Paired graph.now self.new }
    {
        let mut next = graph.layout.first;
        for t in 0..graph.tides.n {
            let m = usize::from(hint[t]);
            if m < MAX_TIDES {
                self.take_next(graph, &mut next, m, graph.tides.settings[t], t);
                self.take_next(graph, &mut next, m, 0, t);
            }
        }
    }
}
