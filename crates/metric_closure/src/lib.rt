// The metric closure of a table of distances, in place (document 02, 2.1: mending a measured table). The table is n rows of n.
#![tactic(auto)]

use crate::counting::close_counted;
use crate::reasons::in_range;
use crate::square::Square;
use study::{MAX_TIDES, Refusal};

mod counting;
mod lowering;
mod reasons;
pub mod row;
mod square;

ghost use Rattle.std.specs.Prelude.{◌≡◌};
ghost use Rattle.metric_closure.specs.Call.{close_verdict, close_answer, close_leaves, checked_of, closed_of};

// The first reason to refuse the table, if there is one.
fn check(table: &[u32], n: usize) -> Result<(), Refusal>
    ensures { checked_of result ≡ close_verdict n table.now }
{
    if MAX_TIDES < n {
        return Err(Refusal::TideCount);
    }
    let size = n * n;
    if table.len() < size {
        return Err(Refusal::ShortMemory);
    }
    if !in_range(&table[..size]) {
        return Err(Refusal::Distance);
    }
    let square = Square { n, places: table };
    if !square.is_symmetric() {
        return Err(Refusal::NotSymmetric);
    }
    Ok(())
}

// Lowers each distance to the least sum over any chain of tides; the answer is how many pairs were lowered.
pub fn close(table: &mut [u32], n: usize) -> Result<usize, Refusal>
    ensures answer { closed_of result ≡ close_answer n table.old }
    ensures leaves { table.new ≡ close_leaves n table.old }
{
    check(table, n)?;
    Ok(close_counted(table, n))
}
