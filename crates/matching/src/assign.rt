// The list that a matching gives: the block of each tide.
ghost use Rattle.std.specs.Prelude.{ℕ, ◌<◌, ◌≤◌, length, IfSome, IfNone};
ghost use Rattle.lists.specs.Lists.{TailKept};
ghost use Rattle.matching.specs.Values.{Open, Stuck, InOwn, BlockFor, Listed};

use crate::graph::Graph;
use crate::pairs::Pairs;
use promise::table::first_allowed;
use study::MAX_TIDES;

// A block that the tide t may go to: the hinted one, or else the first.
fn free_block(graph: &Graph, t: usize, hint: usize) -> Option<usize>
    requires { t < graph.now.tides.n }
    ensures some { IfSome result (Open graph.now t) }
    ensures none { IfNone result (Stuck graph.now t) }
{
    if hint < graph.blocks && graph.allowed[hint * MAX_TIDES + t] != 0 {
        return Some(hint);
    }
    first_allowed(graph.allowed, t, graph.blocks)
}

// The block of the tide t: its slot's, or else a free one.
fn block_of(graph: &Graph, pairs: &Pairs, t: usize, hint: usize) -> Option<usize>
    requires t_lt_tides { t < graph.now.tides.n }
    requires owned { InOwn graph.now pairs.now t }
    ensures some { IfSome result (BlockFor graph.now pairs.now t) }
    ensures none { IfNone result (Stuck graph.now t) }
{
    let s = pairs.slot[t];
    if s < graph.layout.slots {
        return Some(graph.layout.owner[s]);
    }
    free_block(graph, t, hint)
}

// Writes the block of each tide to the front of list, which holds a hint for it. False where a tide may go to no block.
pub fn write_list(graph: &Graph, pairs: &Pairs, list: &mut [u8]) -> bool
    requires n_in_bounds { graph.now.tides.n ≤ length list.old }
    requires by_index { (t : ℕ) → t < graph.now.tides.n → InOwn graph.now pairs.now t }
    ensures { Listed graph.now pairs.now list.old list.new result }
{
    for t in 0..graph.tides.n {
        let Some(m) = block_of(graph, pairs, t, usize::from(list[t])) else {
            return false;
        };
        list[t] = m as u8;
    }
    true
}

// Leaves in list the blocks that a partial matching gives, where it gives one.
pub fn write_partial(graph: &Graph, pairs: &Pairs, list: &mut [u8])
    requires { graph.now.tides.n ≤ length list.old }
    ensures { TailKept graph.now.tides.n list.old list.new }
{
    for t in 0..graph.tides.n {
        let s = pairs.slot[t];
        if s < graph.layout.slots {
            list[t] = graph.layout.owner[s] as u8;
        }
    }
}
