// The blocking of a valid study that has enough tides.
ghost use Rattle.std.specs.Prelude.{◌≡◌, ◌++◌, ℕ, ◌+◌, ◌<◌, ◌≤◌, length, drop};
ghost use Rattle.lists.specs.Lists.{overwrite};
ghost use Rattle.study.specs.Limits.{max_tides};
ghost use Rattle.study.specs.Problem.{labels, blocking};
ghost use Rattle.promise.specs.Met.{met};
ghost use Rattle.radius_theory.specs.Posed.{posed};
ghost use Rattle.blocking_core.specs.Core.{Assigns, Blocks};

use crate::measure::{Measures, measure};
use first_assignment::first::first_assignment;
use radius_search::problem::{LeastRadius, Problem};
use radius_theory::centres::Centres;
use study::{MAX_TIDES, TABLE_SIZE};

// The radius, and of all blocks the centres and the measures. Of each a column, since a call from C is lent a column for each.
#[derive(Clone, Copy)]
pub struct Rows<'a> {
    pub radius: u32,
    pub centres: Centres<'a>,
    pub measures: Measures,
}

// Writes the list: blocks are numbered from 0 in the search, from 1 in the list.
fn number(blocks: &[u8], list: &mut [u8], n: usize)
    requires n_in_bounds { (n ≤ length blocks.now) × (n ≤ length list.old) }
    requires by_index { (t : ℕ) → t < n → labels blocks.now t < max_tides }
    ensures { list.new ≡ overwrite n (λ (t : ℕ). labels blocks.now t + 1) list.old }
{
    for t in 0..n {
        list[t] = blocks[t] + 1;
    }
}

// The least radius with an assignment, its centres, and the first assignment there. The search begins from what its list holds, so it gets one
// of its own: the lent list is only written.
fn assign<'a>(problem: &Problem<'a>, list: &mut [u8]) -> LeastRadius<'a>
    requires { problem.now.study.tides.n ≤ length list.old }
    ensures { let study = problem.now.study in Assigns study.distances.now study.tides.n (met study.tides) result.radius
        result.centres.count result.centres.tides list.old list.new }
{
    let mut allowed: [u8; TABLE_SIZE] = [0; TABLE_SIZE];
    let mut blocks: [u8; MAX_TIDES] = [0; MAX_TIDES];
    let found = problem.least_radius(&mut allowed, &mut blocks);
    first_assignment(&found.centres, &mut allowed, &mut blocks);
    number(&blocks, list, problem.study.tides.n);
    found
}

// The blocking: radius, centres and list, and the blocks' sizes and diameters.
pub fn block_rows<'a>(problem: &Problem<'a>, list: &mut [u8]) -> Rows<'a>
    requires { problem.now.study.tides.n ≤ length list.old }
    ensures blocks { let study = problem.now.study in Blocks study.distances.now study.tides.n (met study.tides)
        result.centres.count result.radius result.measures.widest result.centres.tides result.measures.sizes result.measures.diameters }
    ensures list_after { list.new ≡ blocking (posed problem.now.study) ++ drop problem.now.study.tides.n list.old }
{
    let found = assign(problem, list);
    let measures = measure(&problem.study, list);
    let centres = found.centres;
    Rows {
        radius: found.radius,
        centres,
        measures,
    }
}
