// The rows of Block's records as the columns that C lends, in whose fronts they are written; the least of three lengths.
ghost use Rattle.std.specs.Prelude.{◌≡◌, ℕ, min, get_or};
ghost use Rattle.lists.specs.Lists.{overwrite};
ghost use Rattle.c_records.specs.Records.{ColumnRoom};

use blocking::block::BlockRows;
use storage::copy_front;

// The least of three lengths.
pub fn least(x: usize, y: usize, z: usize) -> usize
    ensures { result ≡ min x (min y z) }
{
    x.min(y.min(z))
}

// The first count places of each row.
pub fn put_columns(
    rows: &BlockRows,
    count: usize,
    centres: &mut [u8],
    sizes: &mut [u8],
    diameters: &mut [u32],
)
    requires { ColumnRoom count centres.old sizes.old diameters.old }
    ensures centres { centres.new ≡ overwrite count (λ (i : ℕ). get_or rows.now.centres i 0) centres.old }
    ensures sizes { sizes.new ≡ overwrite count (λ (i : ℕ). get_or rows.now.tides i 0) sizes.old }
    ensures diameters { diameters.new ≡ overwrite count (λ (i : ℕ). get_or rows.now.diameters i 0) diameters.old }
{
    copy_front(centres, &rows.centres, count);
    copy_front(sizes, &rows.tides, count);
    copy_front(diameters, &rows.diameters, count);
}
