// The first assignment by the order in which each tide ranks the blocks, through the promise of the matching search alone.
ghost use Rattle.std.specs.Prelude.{◌≡◌, ◌<◌, ◌≤◌, length};
ghost use Rattle.lists.specs.Lists.{at, TailKept};
ghost use Rattle.study.specs.Limits.{max_tides, table_size};
ghost use Rattle.study.specs.Problem.{labels};
ghost use Rattle.promise.specs.Promise.{Assigned, Room};
ghost use Rattle.promise.specs.Met.{met};
ghost use Rattle.first_assignment.specs.Column.{Restricted};
ghost use Rattle.first_assignment.specs.First.{rank, First, SearchTried, Chosen};

use crate::column::{fix, restrict};
use crate::rank::Ranks;
use matching::search;
use promise::table::first_allowed;
use promise::tides::Tides;
use radius_theory::centres::Centres;
use study::MAX_TIDES;

// Whether the table has an assignment, which is then written to list. On no, list stays. The search begins at list, with tide t at
// block v.
fn try_search(
    tides: Tides,
    blocks: usize,
    allowed: &[u8],
    list: &mut [u8],
    t: usize,
    v: usize,
) -> bool
    requires blocks_le_max_tides { blocks ≤ max_tides }
    requires t_lt_n { (t < tides.n) × (v < max_tides) }
    requires table_size_in_bounds { table_size ≤ length allowed.now }
    requires n_in_bounds { tides.n ≤ length list.old }
    ensures { SearchTried tides.entry.n blocks (met tides.entry) allowed.now list.old list.new result }
{
    let n = tides.n;
    let mut trial: [u8; MAX_TIDES] = [0; MAX_TIDES];
    trial[..n].copy_from_slice(&list[..n]);
    trial[t] = v as u8;
    if !search(tides, blocks, allowed, &mut trial) {
        return false;
    }
    list[..n].copy_from_slice(&trial[..n]);
    true
}

// Where a search that takes tide t away from block v begins. With tides to spare, at the block that t ranks first: a tide that no
// block needs stays where the search begins. Otherwise at v. It is a hint, and any block would do.
fn begin_at(tides: Tides, ranks: &Ranks, allowed: &[u8], t: usize, v: usize) -> usize
    requires t_lt_max_tides { (t < max_tides) × (v < max_tides) }
    requires table_size_in_bounds { table_size ≤ length allowed.now }
    ensures { result < max_tides }
{
    if tides.n <= ranks.blocks * usize::from(tides.minima.b0) {
        return v;
    }
    ranks.least(allowed, t, v)
}

// Whether there is an assignment that gives tide t a block that ranks before v, which is then written to list. The other blocks
// are taken away from t.
fn lower(
    tides: Tides,
    ranks: &Ranks,
    allowed: &mut [u8],
    list: &mut [u8],
    t: usize,
    v: usize,
) -> bool
    requires room { Room tides.n ranks.now.blocks allowed.old list.old }
    requires t_lt_n { (t < tides.n) × (v < ranks.now.blocks) }
    ensures restricted { Restricted ranks.now.by_block ranks.now.blocks t v allowed.old allowed.new }
    ensures search_tried { SearchTried tides.entry.n ranks.now.blocks (met tides.entry) allowed.new
        list.old list.new result }
{
    restrict(allowed, ranks, t, v);
    let Some(_) = first_allowed(allowed, t, ranks.blocks) else {
        return false;
    };
    let hint = begin_at(tides, ranks, allowed, t, v);
    try_search(tides, ranks.blocks, allowed, list, t, hint)
}

// Gives tide t the block of least rank that an assignment with the tides before it as they are gives it, and leaves it that block
// alone.
fn choose(tides: Tides, ranks: &Ranks, allowed: &mut [u8], list: &mut [u8], t: usize)
    requires room { Room tides.n ranks.now.blocks allowed.old list.old }
    requires assigned { Assigned tides.n ranks.now.blocks (met tides) allowed.old (labels list.old) }
    requires t_lt_n { t < tides.n }
    ensures chosen { Chosen (at ranks.now.by_block) tides.entry.n ranks.now.blocks (met tides.entry) t
        allowed.old allowed.new list.new }
    ensures tail_kept { TailKept tides.entry.n list.old list.new }
{
    let mut v = usize::from(list[t]);
    while lower(tides, ranks, allowed, list, t, v) {
        v = usize::from(list[t]);
    }
    fix(allowed, ranks.blocks, t, v);
}

// Turns an assignment to the blocks around these centres into the first one in dictionary order of the tides' ranks. The table is used up.
pub fn first_assignment(centres: &Centres, allowed: &mut [u8], list: &mut [u8])
    requires room { let study = centres.now.study in Room study.tides.n centres.now.count allowed.old list.old }
    requires assigned { let study = centres.now.study in
        Assigned study.tides.n centres.now.count (met study.tides) allowed.old (labels list.old) }
    ensures first { let study = centres.now.study in First (rank study.distances.now centres.now.tides)
        study.tides.n centres.now.count (met study.tides) allowed.old list.new }
    ensures tail_kept { TailKept centres.now.study.tides.n list.old list.new }
{
    let tides = centres.study.tides;
    let mut ranks = Ranks {
        blocks: centres.count,
        by_block: [0; MAX_TIDES],
    };
    for t in 0..tides.n {
        ranks.rank_blocks(centres, t);
        choose(tides, &ranks, allowed, list, t);
    }
}
