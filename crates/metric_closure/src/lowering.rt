// The closure: by each tide in turn, each row, each place of the row. Here the table is written, and no `Square`: a struct that holds the lent slice
// would need a clause in each function that it still holds the same slice.
ghost use Rattle.std.specs.Prelude.{◌≡◌, ◌*◌, ◌<◌};
ghost use Rattle.metric_closure.specs.Call.{closed_table};
ghost use Rattle.metric_closure.specs.Tables.{Fits, InRange, Lowered};

use crate::row::lower_row;
use crate::square::row_start;
use study::MAX_TIDES;

// The table where the way may go by tide m, whose row is copied first.
fn lower_by(table: &mut [u32], n: usize, m: usize)
    requires fits { Fits n table.old }
    requires in_range { InRange (n * n) table.old }
    requires m_lt_n { m < n }
    ensures { Lowered n m n table.old table.new }
{
    let own = row_start(n, m);
    let mut line = [0u32; MAX_TIDES];
    line[..n].copy_from_slice(&table[own..own + n]);
    for i in 0..n {
        let start = row_start(n, i);
        let far = table[start + m];
        lower_row(&mut table[start..start + n], &line, far);
    }
}

// The table where the way may go by any tides.
pub fn close_table(table: &mut [u32], n: usize)
    requires fits { Fits n table.old }
    requires in_range { InRange (n * n) table.old }
    ensures { table.new ≡ closed_table n table.old }
{
    for m in 0..n {
        lower_by(table, n, m);
    }
}
