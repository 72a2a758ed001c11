// Whether every tide can be given an allowed block so that each block meets the minima, and such an
// assignment. The minima of all blocks are laid out as slots; each slot gets a tide of its own by
// augmenting paths; the other tides go to any block that they may go to.
#![tactic(auto)]

mod assign;
mod augment;
mod graph;
mod pairs;
mod paths;
mod slots;
mod start;

ghost use Rattle.std.specs.Prelude.{◌≤◌, length};
ghost use Rattle.promise.specs.Promise.{Promise, Room};
ghost use Rattle.promise.specs.Met.{met};

use crate::assign::{write_list, write_partial};
use crate::graph::Graph;
use crate::pairs::Pairs;
use crate::slots::Layout;
use promise::tides::Tides;

// Whether there is an assignment, which is then left in the first n places of list. What list holds
// on entry is a hint: where it is near an assignment, the search is short. On no, list keeps the
// partial matching, as a hint for a next search in which a few pairs more are allowed.
pub fn search(tides: Tides, blocks: usize, allowed: &[u8], list: &mut [u8]) -> bool
    requires { Room tides.n blocks allowed.now list.old }
    ensures { Promise tides.entry.n blocks (met tides.entry) allowed.now list.old list.new result }
{
    if blocks * usize::from(tides.minima.b0) > tides.n {
        return false;
    }
    let mut layout = Layout::NONE;
    layout.lay_out(blocks, tides.minima);
    let graph = Graph {
        tides,
        blocks,
        allowed,
        layout: &layout,
    };
    match_slots(&graph, list)
}

// The same for slots that are laid out and are no more than the tides.
fn match_slots(graph: &Graph, list: &mut [u8]) -> bool
    requires { graph.now.tides.n ≤ length list.old }
    ensures { Promise graph.now.tides.n graph.now.blocks (met graph.now.tides) graph.now.allowed.now list.old list.new result }
{
    let mut pairs = Pairs::NONE;
    pairs.start(graph, list);
    if pairs.saturate(graph) && write_list(graph, &pairs, list) {
        return true;
    }
    write_partial(graph, &pairs, list);
    false
}
