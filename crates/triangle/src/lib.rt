// The triangle inequality at one more tide: the first pair of earlier tides with which it violates it.
#![tactic(auto)]

ghost use Rattle.std.specs.Prelude.{◌≡◌, ◌<◌, ◌≤◌, true, not, length, slice_index};
ghost use Rattle.study.specs.Limits.{max_tides, table_size, cell};
ghost use Rattle.study.specs.Calls.{triangle, violations};
ghost use Rattle.triangle.specs.Pairs.{violation_of};
ghost use Rattle.triangle.specs.Prefilter.{TripleFlags, RowFlags, Obeys, SmallRow};

use std::num::{wrapping_add_u32, wrapping_sub_u32};
use study::MAX_TIDES;

// Whether three distances violate the triangle inequality: one exceeds the sum of the other two.
#[tactic(auto, unfolding(study::specs::Calls::triangle))]
fn violates(x: u32, y: u32, z: u32) -> bool
    ensures { result ≡ not (triangle x y z) }
{
    let (a, b, c) = (u64::from(x), u64::from(y), u64::from(z));
    !(a <= b + c && b <= a + c && c <= a + b)
}

// The top bit: 0 for a number below 2 ^ 31, else 1.
fn top(x: u32) -> u32
    ensures { (result ≤ 1) × (result ≡ 0 → x < 2147483648) × (x < 2147483648 → result ≡ 0) }
{
    x / 2147483648
}

// How many flags three distances raise: none only where they obey the triangle inequality; of distances of 20 bits, wherever they do.
// What a sum exceeds a distance by, a, b or c, wraps where it is less, and then one of the three has its top bit set. There is no
// branch, so that the machine tests several triples at once.
fn triple_flags(x: u32, y: u32, z: u32) -> u32
    ensures { TripleFlags x y z result }
{
    let apart = wrapping_sub_u32(x, z);
    let a = wrapping_sub_u32(wrapping_add_u32(x, z), y);
    let b = wrapping_add_u32(y, apart);
    let c = wrapping_sub_u32(y, apart);
    top(a) + top(b) + top(c)
}

// How many flags a tide raises that is at distance y from one tide and at the row's from others, which are at the line's from that
// one: none only where it obeys the triangle inequality with each of them; where every distance has 20 bits, wherever it does.
fn row_flags(line: &[u32], y: u32, row: &[u32]) -> u32
    requires row_in_bounds { length row.now ≤ length line.now }
    requires row_len_bound { length row.now ≤ max_tides }
    ensures { RowFlags line.now y row.now (length row.now) result }
{
    let mut total: u32 = 0;
    for j in 0..row.len() {
        total += triple_flags(line[j], y, row[j]);
    }
    total
}

// Whether a tide at the row's distances raises no flag. True only where it obeys the triangle inequality with every pair; where every
// distance has 20 bits, wherever it does. A row without flags is spared the search.
fn prefilter(distances: &[u32], row: &[u32]) -> bool
    requires table_size_in_bounds { table_size ≤ length distances.now }
    requires row_len_bound { length row.now ≤ max_tides }
    ensures rule { result ≡ true → Obeys distances.now row.now (length row.now) }
    ensures clear { SmallRow distances.now row.now
        → Obeys distances.now row.now (length row.now) → result ≡ true }
{
    let n = row.len();
    for i in 0..n {
        let line = i * MAX_TIDES;
        if 0 < row_flags(&distances[line + i + 1..line + n], row[i], &row[i + 1..]) {
            return false;
        }
    }
    true
}

// The first pair that violates the triangle inequality with a tide at the row's distances, by a test of pair after pair.
fn find_violation(distances: &[u32], row: &[u32]) -> Option<(usize, usize)>
    requires table_size_in_bounds { table_size ≤ length distances.now }
    requires row_len_bound { length row.now ≤ max_tides }
    ensures { result ≡ violation_of (violations (cell distances.now) (length row.now) (λ i. slice_index row.now i)) }
{
    let n = row.len();
    let mut found = None;
    'search: for i in 0..n {
        let line = i * MAX_TIDES;
        for j in i + 1..n {
            if violates(distances[line + j], row[i], row[j]) {
                found = Some((i + 1, j + 1));
                break 'search;
            }
        }
    }
    found
}

// The first pair of tides, in order of the lower number and then the higher, that violates the triangle inequality with a tide at the
// row's distances. Both are numbered from 1, the lower number first.
pub fn first_violation(distances: &[u32], row: &[u32]) -> Option<(usize, usize)>
    requires table_size_in_bounds { table_size ≤ length distances.now }
    requires row_len_bound { length row.now ≤ max_tides }
    ensures { result ≡ violation_of (violations (cell distances.now) (length row.now) (λ i. slice_index row.now i)) }
{
    if prefilter(distances, row) {
        return None;
    }
    find_violation(distances, row)
}
