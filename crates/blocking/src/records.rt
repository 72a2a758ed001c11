// Block's records in a lent slice. The core computes plain rows; the functions here are thin.
ghost use Rattle.std.specs.Prelude.{◌≡◌};
ghost use Rattle.validity.specs.View.{seen};
ghost use Rattle.access.specs.Calls.{reply, list_after, records_after};
ghost use Rattle.blocking.specs.Calls.{makes_blocks, blocked_reply};
ghost use Rattle.blocking.specs.Rows.{no_records};

use crate::block::block_core;
use crate::storing::{NO_RECORD, put_records};
use study::{BlockRecord, Figures, MAX_TIDES, Refusal};
use validity::view::View;

// Block: the list, a record for each block, and the answer. A refusal writes nothing.
pub fn block(view: View, list: &mut [u8], records: &mut [BlockRecord]) -> Result<Figures, Refusal>
    ensures answer { blocked_reply result ≡ reply (seen view.entry) (makes_blocks list.old records.old) }
    ensures list { list.new ≡ list_after (seen view.entry) (makes_blocks list.old records.old) }
    ensures records { records.new ≡ records_after (seen view.entry) (makes_blocks list.old records.old) }
{
    let room = records.len();
    let computed = block_core(view, list, room)?;
    put_records(records, computed.rows);
    Ok(computed.figures)
}

// Block's answer and records by value, for callers that lend no records. A refusal leaves blank ones.
#[derive(Clone, Copy)]
pub struct Blocking {
    pub answer: Result<Figures, Refusal>,
    pub records: [BlockRecord; MAX_TIDES],
}

// Block with its records in a local array.
pub fn block_by_value(view: View, list: &mut [u8]) -> Blocking
    ensures answer { blocked_reply result.answer ≡ reply (seen view.entry) (makes_blocks list.old no_records) }
    ensures list { list.new ≡ list_after (seen view.entry) (makes_blocks list.old no_records) }
    ensures records { result.records ≡ records_after (seen view.entry) (makes_blocks list.old no_records) }
{
    let mut records = [NO_RECORD; MAX_TIDES];
    let answer = block(view, list, &mut records);
    Blocking { answer, records }
}
