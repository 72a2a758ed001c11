// A matching that gives every slot a tide, by augmenting paths.
ghost use Rattle.std.specs.Prelude.{◌≡◌, true, false, ◌<◌, ◌≤◌, IsTrue};
ghost use Rattle.study.specs.Limits.{max_tides};
ghost use Rattle.lists.specs.Lists.{at};
ghost use Rattle.matching.specs.Values.{Paired, Reached, Improved, Full, Unpairable};

use crate::graph::Graph;
use crate::pairs::Pairs;
use crate::paths::Paths;

impl Pairs {
    // Gives the slot last the tide free, the tide that it held to the slot it was seen from, and so on to the root of the tree.
    fn shift(&mut self, graph: &Graph, paths: &Paths, last: usize, free: usize)
        requires paired { Paired graph.now self.old }
        requires reached { Reached graph.now self.old paths.now last free }
        ensures { Improved graph.now (at paths.now.queue 0) self.old self.new }
    {
        let mut s = last;
        let mut t = free;
        while let Some(o) = self.give(s, t, graph.tides.n) {
            s = paths.from[o];
            t = o;
        }
    }

    // Gives the free slot root a tide, and leaves every slot that has one with one. False where no matching gives every slot a tide.
    fn augment(&mut self, graph: &Graph, paths: &mut Paths, root: usize) -> bool
        requires paired { Paired graph.now self.old }
        requires root_lt_slots { (root < graph.now.layout.now.slots) × (graph.now.tides.n ≤ at self.old.tide root) }
        ensures augmented { result ≡ true → Improved graph.now root self.old self.new }
        ensures unpairable { result ≡ false → Unpairable graph.now }
    {
        paths.plant(root);
        let Some((last, free)) = paths.grow(graph, self) else {
            return false;
        };
        self.shift(graph, paths, last, free);
        true
    }

    // Gives every slot a tide. False where no matching does.
    pub fn saturate(&mut self, graph: &Graph) -> bool
        requires { Paired graph.now self.old }
        ensures saturated { result ≡ true → Full graph.now graph.now.layout.now.slots self.new }
        ensures unpairable { result ≡ false → Unpairable graph.now }
    {
        let mut paths = Paths::NONE;
        for s in 0..graph.layout.slots {
            if self.tide[s] >= graph.tides.n && !self.augment(graph, &mut paths, s) {
                return false;
            }
        }
        true
    }
}
