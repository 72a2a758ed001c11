// The table of allowed pairs, a row of MAX_TIDES places for each block.
ghost use Rattle.std.specs.Prelude.{◌<◌, ◌≤◌, length, IfSome, IfNone};
ghost use Rattle.study.specs.Limits.{max_tides, table_size};
ghost use Rattle.promise.specs.Promise.{MayGo, Nowhere};

use study::MAX_TIDES;

// The first block that the tide t may go to.
pub fn first_allowed(allowed: &[u8], t: usize, blocks: usize) -> Option<usize>
    requires blocks_le_max_tides { blocks ≤ max_tides }
    requires t_lt_max_tides { t < max_tides }
    requires table_size_in_bounds { table_size ≤ length allowed.now }
    ensures some { IfSome result (MayGo allowed.now blocks t) }
    ensures none { IfNone result (Nowhere allowed.now t blocks) }
{
    for m in 0..blocks {
        if allowed[m * MAX_TIDES + t] != 0 {
            return Some(m);
        }
    }
    None
}
