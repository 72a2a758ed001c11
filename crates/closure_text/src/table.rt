// The table of a measured study, and its closure.
ghost use Rattle.std.specs.Prelude.{◌≡◌, ◌*◌, ◌/◌, ◌%◌, ◌≤◌, ◌<◌, length};
ghost use Rattle.lists.specs.Lists.{overwrite};
ghost use Rattle.study.specs.Limits.{max_tides, table_size};
ghost use Rattle.metric_closure.specs.Closure.{lowered_pairs};
ghost use Rattle.metric_closure.specs.Call.{entry, closed_table};
ghost use Rattle.metric_closure.specs.Theorems.{Closable};
ghost use Rattle.closure_text.specs.Rows.{lower_cell};

use metric_closure::close;
use study::MAX_TIDES;

// The distance of two tides, from the later one's row.
fn stored_distance(distances: &[u32], i: usize, j: usize) -> u32
    requires { (table_size ≤ length distances.now) × (i < max_tides) × (j < max_tides) }
    ensures { result ≡ lower_cell distances.now i j }
{
    if i < j {
        return distances[j * MAX_TIDES + i];
    }
    if j < i {
        return distances[i * MAX_TIDES + j];
    }
    0
}

// The distances of n tides in n rows of n.
pub fn fill_table(table: &mut [u32], distances: &[u32], n: usize)
    requires { (table_size ≤ length distances.now) × (n ≤ max_tides) × (n * n ≤ length table.old) }
    ensures { table.new
        ≡ overwrite (n * n) (λ p. lower_cell distances.now (p / n) (p % n)) table.old }
{
    for p in 0..n * n {
        table[p] = stored_distance(distances, p / n, p % n);
    }
}

// The closure of a table that no reason refuses; the answer is how many pairs were lowered.
pub fn close_table(table: &mut [u32], n: usize) -> u32
    requires { Closable n table.old }
    ensures { (result ≡ lowered_pairs n (entry n table.old)) × (table.new ≡ closed_table n table.old) }
{
    match close(table, n) {
        Ok(lowered) => lowered as u32,
        Err(_) => 0,
    }
}
