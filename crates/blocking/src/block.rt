// Block: the core, by plain rows of numbers.
ghost use Rattle.std.specs.Prelude.{◌≡◌};
ghost use Rattle.study.specs.Refusals.{verdict_of};
ghost use Rattle.validity.specs.View.{seen};
ghost use Rattle.access.specs.Calls.{reply, list_after};
ghost use Rattle.blocking.specs.Calls.{makes_blocks};
ghost use Rattle.blocking.specs.Accepted.{block_answer};
ghost use Rattle.blocking.specs.Rows.{Lending, Leaves, core_reply, rows_of};

use crate::computing::compute;
use crate::input::study_of;
use crate::tides::check_tides;
use radius_search::bound::ball_meets;
use study::{Figures, MAX_DISTANCE, MAX_TIDES, Refusal};
use validity::view::View;

// The records of the blocks as rows of numbers: centres' tide numbers, numbers of tides, diameters. `count` is the number of blocks.
// The places past it are free: they may hold any numbers, and no record is made of them.
#[derive(Clone, Copy)]
pub struct BlockRows {
    pub count: usize,
    pub centres: [u8; MAX_TIDES],
    pub tides: [u8; MAX_TIDES],
    pub diameters: [u32; MAX_TIDES],
}

// Block's figures, and the rows of its blocks.
#[derive(Clone, Copy)]
pub struct Computed {
    pub figures: Figures,
    pub rows: BlockRows,
}

// The answer alone, with a list and records of these lengths.
fn block_answer(view: View, list: usize, records: usize) -> Result<(), Refusal>
    ensures { verdict_of result ≡ block_answer (seen view.entry) list records }
{
    check_tides(view)?;
    let n = view.dataset.n;
    let study = study_of(view);
    // every tide is at most MAX_DISTANCE from the first
    if !ball_meets(&study, 0, MAX_DISTANCE) {
        return Err(Refusal::TooFewTides);
    }
    if list < n {
        return Err(Refusal::ShortMemory);
    }
    if records < n {
        return Err(Refusal::ShortMemory);
    }
    Ok(())
}

// Block, with its records by value. Of the records that the rows will be put into it is told how many there are, `room`, and no more; so its
// contract speaks of any records of that number (`Lending`). Answer, list and the rows of the blocks there are are settled; the rows past the
// last block are free (`RowsOf`).
pub fn block_core(view: View, list: &mut [u8], room: usize) -> Result<Computed, Refusal>
    ensures answer { Lending room (λ records. core_reply result ≡ reply (seen view.entry) (makes_blocks list.old records)) }
    ensures rows { Leaves (seen view.entry) (makes_blocks list.old) room rows_of result }
    ensures list { Lending room (λ records. list.new ≡ list_after (seen view.entry) (makes_blocks list.old records)) }
{
    block_answer(view, list.len(), room)?;
    Ok(compute(view, list, room))
}
