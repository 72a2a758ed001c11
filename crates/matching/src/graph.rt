// The tides that blocks take, as a graph: which slot can hold which tide.
ghost use Rattle.std.specs.Prelude.{◌≡◌, ◌*◌, ◌≤◌};
ghost use Rattle.study.specs.Limits.{max_tides};
ghost use Rattle.matching.specs.Graph.{SizedGraph};
ghost use Rattle.matching.specs.Slots.{Slots};

use crate::slots::Layout;
use promise::tides::Tides;
use study::MAX_TIDES;

// The tides, the table of the pairs that are allowed for so many blocks, and the slots of the blocks.
#[derive(Clone, Copy)]
pub struct Graph<'a> {
    pub tides: Tides<'a>,
    pub blocks: usize,
    pub allowed: &'a [u8],
    pub layout: &'a Layout,
    pub ghost few_blocks: { blocks ≤ max_tides },
    pub ghost laid: { Slots blocks tides.minima.b0 tides.minima.b layout.now.owner layout.now.kind },
    pub ghost count: { layout.now.slots ≡ blocks * tides.minima.b0 },
    pub ghost sized: { SizedGraph allowed.now tides.settings.now layout.now.owner layout.now.kind layout.now.slots tides.n },
}

impl<'a> Graph<'a> {
    ghost use Rattle.std.specs.Prelude.{◌<◌};
    ghost use Rattle.matching.specs.Graph.{Decides};
    ghost use Rattle.matching.specs.Values.{Holds};

    // Whether the slot s can hold the tide t.
    pub fn can_hold(&self, s: usize, t: usize) -> bool
        requires s_lt_slots { s < self.now.layout.now.slots }
        requires t_lt_tides { t < self.now.tides.n }
        ensures { Decides (Holds self.now s t) result }
    {
        if self.allowed[self.layout.owner[s] * MAX_TIDES + t] == 0 {
            return false;
        }
        let kind = self.layout.kind[s];
        kind == 0 || kind == self.tides.settings[t]
    }
}
