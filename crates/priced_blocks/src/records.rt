// The tariff with its records in a lent slice: Block's thin function, over the core that prices.
ghost use Rattle.std.specs.Prelude.{◌≡◌};
ghost use Rattle.validity.specs.View.{seen};
ghost use Rattle.access.specs.Calls.{reply, list_after, records_after};
ghost use Rattle.blocking.specs.Calls.{};
ghost use Rattle.priced_blocks.specs.Calls.{prices_blocks, priced_reply};

use crate::kernel::{Priced, price_core};
use blocking::storing::put_records;
use study::{BlockRecord, Refusal};
use validity::view::View;

// The tariff: list and records as Block leaves them; Block's figures, the total and the shares. A refusal writes nothing.
pub fn price_blocks(
    view: View,
    list: &mut [u8],
    records: &mut [BlockRecord],
) -> Result<Priced, Refusal>
    ensures answer { priced_reply result ≡ reply (seen view.entry) (prices_blocks list.old records.old) }
    ensures list { list.new ≡ list_after (seen view.entry) (prices_blocks list.old records.old) }
    ensures records { records.new ≡ records_after (seen view.entry) (prices_blocks list.old records.old) }
{
    let room = records.len();
    let computed = price_core(view, list, room)?;
    put_records(records, computed.rows);
    Ok(computed.priced)
}
