// What an accepted Block stores: its rows as records, in a lent slice.
ghost use Rattle.std.specs.Prelude.{◌≡◌, ◌<◌, ◌≤◌, length};
ghost use Rattle.lists.specs.Lists.{overwrite};
ghost use Rattle.study.specs.Limits.{max_tides};
ghost use Rattle.blocking.specs.Rows.{row_record};

use crate::block::BlockRows;
use study::BlockRecord;

// A place with no block in it.
pub const NO_RECORD: BlockRecord = BlockRecord {
    centre: 0,
    tides: 0,
    diameter: 0,
};

// The record of one block.
fn row_at(rows: BlockRows, i: usize) -> BlockRecord
    requires { i < max_tides }
    ensures { result ≡ row_record rows i }
{
    BlockRecord {
        centre: rows.centres[i],
        tides: rows.tides[i],
        diameter: rows.diameters[i],
    }
}

// Stores the records of all blocks; the later places stay.
pub fn put_records(records: &mut [BlockRecord], rows: BlockRows)
    requires { (rows.count ≤ length records.old) × (rows.count ≤ max_tides) }
    ensures { records.new ≡ overwrite rows.count (row_record rows) records.old }
{
    for i in 0..rows.count {
        records[i] = row_at(rows, i);
    }
}
