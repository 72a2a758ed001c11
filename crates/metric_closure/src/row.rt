// One row, lowered by one way: also for rows of other tables.
ghost use Rattle.std.specs.Prelude.{◌≡◌, ◌≤◌, length};
ghost use Rattle.lists.specs.Lists.{overwrite};
ghost use Rattle.study.specs.Limits.{max_distance};
ghost use Rattle.metric_closure.specs.Tables.{InRange, lesser_way};

// A tide's row where the way to each other tide may go by one at this distance, whose row is the line.
// There is no branch, so that the machine does several tides at once.
pub fn lower_row(row: &mut [u32], line: &[u32], far: u32)
    requires row_in_bounds { length row.old ≤ length line.now }
    requires far_le_max_distance { far ≤ max_distance }
    requires in_range { InRange (length row.old) line.now }
    ensures { row.new
        ≡ overwrite (length row.old) (lesser_way row.old line.now far) row.old }
{
    for j in 0..row.len() {
        row[j] = row[j].min(far + line[j]);
    }
}
