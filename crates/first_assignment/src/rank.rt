// What a tide ranks the blocks by, the one of least rank first.
ghost use Rattle.std.specs.Prelude.{◌≡◌, ℕ, ◌+◌, ◌*◌, ◌<◌, ◌≤◌, length, slice_index};
ghost use Rattle.study.specs.Limits.{max_tides, table_size};
ghost use Rattle.first_assignment.specs.First.{rank};

use radius_theory::centres::Centres;
use study::MAX_TIDES;

// The ranks of so many blocks by one tide; the places past them are free.
#[derive(Clone, Copy)]
pub struct Ranks {
    pub blocks: usize,
    pub by_block: [u64; MAX_TIDES],
    pub ghost few: { blocks ≤ max_tides },
}

// A block's rank, by how far its centre is and by its number.
fn rank_of(distance: u32, m: usize) -> u64
    requires { m < max_tides }
    ensures { result ≡ distance * max_tides + m }
{
    u64::from(distance) * MAX_TIDES as u64 + m as u64
}

impl Ranks {
    // Takes what tide t ranks the blocks around these centres by.
    pub fn rank_blocks(&mut self, centres: &Centres, t: usize)
        requires same { self.old.blocks ≡ centres.now.count }
        requires t_lt_n { t < centres.now.study.tides.n }
        ensures blocks { self.new.blocks ≡ centres.now.count }
        ensures by_block { (m : ℕ) → m < centres.now.count
            → slice_index self.new.by_block m ≡ rank centres.now.study.distances.now centres.now.tides t m }
    {
        for m in 0..centres.count {
            self.by_block[m] = rank_of(centres.distance(m, t), m);
        }
    }

    // Of v and the blocks that tide t may go to, the one of least rank. It serves as a hint: only that it is a number of a table's row is
    // promised.
    pub fn least(&self, allowed: &[u8], t: usize, v: usize) -> usize
        requires t_lt_max_tides { (t < max_tides) × (v < max_tides) }
        requires table_size_in_bounds { table_size ≤ length allowed.now }
        ensures { result < max_tides }
    {
        let mut best = v;
        for m in 0..self.blocks {
            if allowed[m * MAX_TIDES + t] != 0 && self.by_block[m] < self.by_block[best] {
                best = m;
            }
        }
        best
    }
}
