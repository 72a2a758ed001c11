// Block with what its blocks cost, for C (document 02, 2.3: tariff for a trial).
ghost use Rattle.std.specs.Prelude.{◌≡◌, ◌<◌, ◌∷◌};
ghost use Rattle.priced_blocks.specs.Calls.{prices_blocks};
ghost use Rattle.c_records.specs.Record.{lent, code};
ghost use Rattle.c_api.specs.Api.{places, blocks_verdict, blocks_left};

use c_records::code::refusal_code;
use c_records::numbers::{RECORD_SIZE, dataset_of};
use c_records::rows::{least, put_columns};
use priced_blocks::kernel::{Priced, price_core};
use storage::copy_front;
use study::Figures;
use validity::view::View;

// The numbers of an accepted tariff in one row.
fn bill_row(priced: Priced) -> [u32; 12]
    requires { priced.figures.blocks < 4294967296 }
    ensures { result ≡ priced.figures.blocks ∷ priced.figures.radius ∷ priced.figures.widest ∷ priced.total ∷ priced.shares }
{
    let Figures {
        blocks,
        radius,
        widest,
    } = priced.figures;
    let s = priced.shares;
    [
        blocks as u32,
        radius,
        widest,
        priced.total,
        s[0],
        s[1],
        s[2],
        s[3],
        s[4],
        s[5],
        s[6],
        s[7],
    ]
}

// The tariff: the result is 12 numbers: Block's three, the total in pence and the eight settings' shares of it.
pub fn tides_tariff(
    numbers: &[u16],
    distances: &[u32],
    settings: &[u8],
    list: &mut [u8],
    centres: &mut [u8],
    sizes: &mut [u8],
    diameters: &mut [u32],
    res: &mut [u32],
) -> u32
    ensures code { result
        ≡ code (blocks_verdict 12 (lent numbers.now distances.now settings.now) prices_blocks (places list.old centres.old sizes.old diameters.old res.old)) }
    ensures leaves { places list.new centres.new sizes.new diameters.new res.new
        ≡ blocks_left 12 (lent numbers.now distances.now settings.now) prices_blocks (places list.old centres.old sizes.old diameters.old res.old) }
{
    if numbers.len() < RECORD_SIZE {
        return 1;
    }
    if res.len() < 12 {
        return 1;
    }
    let view = View {
        dataset: dataset_of(numbers),
        distances,
        settings,
    };
    let room = least(centres.len(), sizes.len(), diameters.len());
    match price_core(view, list, room) {
        Err(why) => refusal_code(why),
        Ok(computed) => {
            let priced = computed.priced;
            put_columns(
                &computed.rows,
                priced.figures.blocks,
                centres,
                sizes,
                diameters,
            );
            copy_front(res, &bill_row(priced), 12);
            0
        }
    }
}
