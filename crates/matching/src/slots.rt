// The minima of all blocks as slots: each is to get a tide of its own.
ghost use Rattle.std.specs.Prelude.{◌≡◌, ◌+◌, ◌*◌, ◌<◌, ◌≤◌};
ghost use Rattle.study.specs.Limits.{max_tides, max_settings};
ghost use Rattle.matching.specs.Slots.{total, Slots, Added, BlockAdded};

use study::{MAX_SETTINGS, MAX_TIDES, Minima};

// The places of a table that has one for each block and kind.
pub const CLASSES: usize = MAX_TIDES * (MAX_SETTINGS + 1);

// The place of block m and kind k in such a table.
pub fn class(m: usize, k: u8) -> usize
    requires m_lt_max_tides { m < max_tides }
    requires k_le_max_settings { k ≤ max_settings }
    ensures value { result ≡ m * 9 + k }
    ensures below { result < 1080 }
{
    m * (MAX_SETTINGS + 1) + usize::from(k)
}

// Slot s belongs to the block owner[s] and takes tides of the setting kind[s], or of any setting where kind[s] is 0. Two arrays: the facts
// of specs/ are over the two lists.
#[derive(Drop)]
pub struct Layout {
    // How many slots there are.
    pub slots: usize,
    pub owner: [usize; MAX_TIDES],
    pub kind: [u8; MAX_TIDES],
    // The first slot of each block and kind: those of one block and kind stand in a row.
    pub first: [u8; CLASSES],
}

impl Layout {
    // No slots. It is filled in place, and so are Pairs and Paths: a value of this size that is handed back is copied.
    pub const NONE: Layout = Layout {
        slots: 0,
        owner: [0; MAX_TIDES],
        kind: [0; MAX_TIDES],
        first: [0; CLASSES],
    };

    // Adds size slots of block m and kind k.
    fn add(&mut self, m: usize, k: u8, size: usize)
        requires size_bound { self.old.slots + size ≤ max_tides }
        requires m_lt_max_tides { m < max_tides }
        requires k_le_max_settings { k ≤ max_settings }
        ensures added { Added self.old.slots m k size self.old.owner self.old.kind self.new.owner self.new.kind }
        ensures slots_after { self.new.slots ≡ self.old.slots + size }
    {
        let start = self.slots;
        self.first[class(m, k)] = start as u8;
        // A loop and no fill: most sizes are 0, and fill calls memset for each.
        for i in 0..size {
            self.owner[start + i] = m;
            self.kind[start + i] = k;
        }
        self.slots = start + size;
    }

    // Adds the b0 slots of block m: b[j] of each setting j + 1, and the rest of any setting.
    fn add_block(&mut self, m: usize, minima: Minima)
        requires b0_bound { self.old.slots + minima.b0 ≤ max_tides }
        requires m_lt_max_tides { m < max_tides }
        requires b_bound { total minima.b ≤ minima.b0 }
        ensures added { BlockAdded self.old.slots m minima.b0 minima.b self.old.owner self.old.kind self.new.owner self.new.kind }
        ensures slots_after { self.new.slots ≡ self.old.slots + minima.b0 }
    {
        let end = self.slots + usize::from(minima.b0);
        for j in 0..MAX_SETTINGS {
            self.add(m, (j + 1) as u8, usize::from(minima.b[j]));
        }
        self.add(m, 0, end - self.slots);
    }

    // Adds the slots of the blocks 0..blocks where there are none yet.
    pub fn lay_out(&mut self, blocks: usize, minima: Minima)
        requires none { self.old.slots ≡ 0 }
        requires blocks_le_max_tides { blocks ≤ max_tides }
        requires b0_bound { blocks * minima.b0 ≤ max_tides }
        requires b_bound { total minima.b ≤ minima.b0 }
        ensures laid { Slots blocks minima.b0 minima.b self.new.owner self.new.kind }
        ensures count { self.new.slots ≡ blocks * minima.b0 }
    {
        for m in 0..blocks {
            self.add_block(m, minima);
        }
    }
}
