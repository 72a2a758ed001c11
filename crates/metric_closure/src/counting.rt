// How many pairs the closure lowers.
ghost use Rattle.std.specs.Prelude.{◌≡◌, ◌*◌, ◌≤◌, ltb, length, get_or};
ghost use Rattle.lists.specs.Lists.{count_below};
ghost use Rattle.metric_closure.specs.Closure.{nearer_pairs, lowered_pairs};
ghost use Rattle.metric_closure.specs.Call.{entry, closed_table};
ghost use Rattle.metric_closure.specs.Tables.{Fits, InRange};

use crate::lowering::close_table;
use crate::square::Square;
use study::TABLE_SIZE;

// At how many places a row holds less than another.
fn nearer_places(new: &[u32], old: &[u32]) -> usize
    requires { length new.now ≤ length old.now }
    ensures value { result
        ≡ count_below (length new.now) (λ j. ltb (get_or new.now j 0) (get_or old.now j 0)) }
    ensures upper_bound { result ≤ length new.now }
{
    let mut total: usize = 0;
    for (j, distance) in new.iter().enumerate() {
        total += usize::from(*distance < old[j]);
    }
    total
}

// The pairs of tides that are nearer in one table than in another: each tide with those before it.
fn nearer_pairs(new: &Square, old: &Square) -> usize
    requires { new.now.n ≡ old.now.n }
    ensures { result ≡ nearer_pairs new.now.n (entry new.now.n new.now.places.now) (entry new.now.n old.now.places.now) }
{
    let mut total: usize = 0;
    for i in 0..new.n {
        total += nearer_places(new.before(i), old.before(i));
    }
    total
}

// The closure of a table that is not refused, and how many pairs it lowers, against a copy of what was sent.
pub fn close_counted(table: &mut [u32], n: usize) -> usize
    requires fits { Fits n table.old }
    requires in_range { InRange (n * n) table.old }
    ensures value { result ≡ lowered_pairs n (entry n table.old) }
    ensures table_after { table.new ≡ closed_table n table.old }
{
    let size = n * n;
    let mut sent = [0u32; TABLE_SIZE];
    sent[..size].copy_from_slice(&table[..size]);
    close_table(table, n);
    let closed = Square { n, places: table };
    let sent = Square { n, places: &sent };
    nearer_pairs(&closed, &sent)
}
