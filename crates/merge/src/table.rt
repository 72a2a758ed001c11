// The merged table: the first one, and behind it a row for each remaining tide of the second dataset. A tide of the one and a tide of the other are
// at the least sum through a shared tide.
ghost use Rattle.std.specs.Prelude.{◌≡◌, ◌+◌, ◌≤◌, ◌<◌, length, take};
ghost use Rattle.lists.specs.Lists.{every, overwrite, at};
ghost use Rattle.study.specs.Limits.{max_tides, table_size};
ghost use Rattle.merge.specs.Lent.{of_tables};
ghost use Rattle.merge.specs.Rows.{Tables, Remaining, cross_row, added_row, row_in_range, with_rows, with_settings};

use crate::rest::Rest;
use crate::source::{Sources, tide_of};
use metric_closure::row::lower_row;
use study::{MAX_TIDES, TABLE_SIZE};
use validity::row_in_range;

// No sum of two distances is greater; a row begins with it.
const MAX_SUM: u32 = 2097150;

// The least sums through a shared tide from tide j of the second table to each place of the first.
fn cross_row(sources: &Sources, j: usize) -> [u32; MAX_TIDES]
    requires tables { of_tables Tables sources.now }
    requires j_lt_max_tides { j < max_tides }
    ensures { result ≡ of_tables cross_row sources.now j }
{
    let d1 = sources.first.distances;
    let d2 = sources.second.distances;
    let mut row = [MAX_SUM; MAX_TIDES];
    for q in 0..sources.firsts.len() {
        let start = tide_of(sources.firsts, q) * MAX_TIDES;
        let far = d2[tide_of(sources.seconds, q) * MAX_TIDES + j];
        lower_row(&mut row, &d1[start..start + MAX_TIDES], far);
    }
    row
}

// Whether the remaining tides are in range of the first's (reason 6).
pub fn in_range(sources: &Sources, rest: &Rest) -> bool
    requires tables { of_tables Tables sources.now }
    requires remaining { Remaining sources.now.first.dataset.n rest.now.count rest.now.tides }
    ensures { result ≡ every rest.now.count (λ k. row_in_range
        (take sources.now.first.dataset.n (of_tables cross_row sources.now (at rest.now.tides k)))) }
{
    let n = sources.first.dataset.n;
    for r in 0..rest.count {
        let row = cross_row(sources, usize::from(rest.tides[r]));
        if !row_in_range(&row[..n]) {
            return false;
        }
    }
    true
}

// The row of the remaining tide r, behind n tides.
fn added_row(sources: &Sources, rest: &Rest, r: usize) -> [u32; MAX_TIDES]
    requires tables { of_tables Tables sources.now }
    requires remaining { Remaining sources.now.first.dataset.n (r + 1) rest.now.tides }
    ensures { take (sources.now.first.dataset.n + r) result
        ≡ of_tables (added_row sources.now.first.dataset.n) sources.now rest.now.tides r }
{
    let n = sources.first.dataset.n;
    let d2 = sources.second.distances;
    let j = usize::from(rest.tides[r]);
    let mut row = cross_row(sources, j);
    for q in 0..r {
        row[n + q] = d2[usize::from(rest.tides[q]) * MAX_TIDES + j];
    }
    row
}

// Writes the merged table.
pub fn put_distances(sources: &Sources, rest: &Rest, d3: &mut [u32])
    requires tables { of_tables Tables sources.now }
    requires remaining { Remaining sources.now.first.dataset.n rest.now.count rest.now.tides }
    requires table_size_in_bounds { table_size ≤ length d3.old }
    ensures { d3.new
        ≡ with_rows (of_tables (added_row sources.now.first.dataset.n) sources.now rest.now.tides) rest.now.count
        (overwrite table_size (at sources.now.first.distances.now) d3.old) }
{
    let n = sources.first.dataset.n;
    storage::copy_front(d3, sources.first.distances, TABLE_SIZE);
    for r in 0..rest.count {
        let row = added_row(sources, rest, r);
        storage::put_row(d3, &row[..n + r]);
    }
}

// Writes the merged settings.
pub fn put_settings(sources: &Sources, rest: &Rest, s3: &mut [u8])
    requires remaining { Remaining sources.now.first.dataset.n rest.now.count rest.now.tides }
    requires max_tides_in_bounds { (max_tides ≤ length sources.now.first.settings.now) × (max_tides ≤ length sources.now.second.settings.now)
        × (max_tides ≤ length s3.old) }
    ensures { s3.new
        ≡ with_settings sources.now.first.dataset.n (λ r. at sources.now.second.settings.now (at rest.now.tides r)) rest.now.count
        (overwrite max_tides (at sources.now.first.settings.now) s3.old) }
{
    let n = sources.first.dataset.n;
    storage::copy_front(s3, sources.first.settings, MAX_TIDES);
    for r in 0..rest.count {
        s3[n + r] = sources.second.settings[usize::from(rest.tides[r])];
    }
}
