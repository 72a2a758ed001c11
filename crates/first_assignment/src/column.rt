// The blocks that one tide may go to: its column of the table of allowed pairs, which has a row for each block.
ghost use Rattle.std.specs.Prelude.{◌≡◌, ℕ, ◌<◌, ◌≤◌, length};
ghost use Rattle.study.specs.Limits.{max_tides, table_size};
ghost use Rattle.first_assignment.specs.Column.{Column, Restricted};

use crate::rank::Ranks;
use study::MAX_TIDES;

// Leaves tide t those of its blocks that rank before block v.
pub fn restrict(allowed: &mut [u8], ranks: &Ranks, t: usize, v: usize)
    requires t_lt_max_tides { t < max_tides }
    requires v_lt_blocks { v < ranks.now.blocks }
    requires table_size_in_bounds { table_size ≤ length allowed.old }
    ensures { Restricted ranks.now.by_block ranks.now.blocks t v allowed.old allowed.new }
{
    let limit = ranks.by_block[v];
    for m in 0..ranks.blocks {
        // a product and no branch: which of the blocks rank before v follows no pattern
        let kept = u8::from(ranks.by_block[m] < limit);
        let place = m * MAX_TIDES + t;
        allowed[place] *= kept;
    }
}

// Leaves tide t block v alone, whether it might go there or not.
pub fn fix(allowed: &mut [u8], blocks: usize, t: usize, v: usize)
    requires blocks_le_max_tides { (blocks ≤ max_tides) × (t < max_tides) }
    requires table_size_in_bounds { table_size ≤ length allowed.old }
    ensures { Column blocks t (λ (m : ℕ). m ≡ v) allowed.old allowed.new }
{
    for m in 0..blocks {
        allowed[m * MAX_TIDES + t] = u8::from(m == v);
    }
}
