// Each tide's nearest centre (document 02, 2.4): its block number and its distance.
#![tactic(auto)]

ghost use Rattle.std.specs.Prelude.{◌≡◌, ◌≤◌, ◌<◌, length, take};
ghost use Rattle.lists.specs.Lists.{overwrite};
ghost use Rattle.study.specs.Problem.{nearest_distance, nearest_block};
ghost use Rattle.radius_theory.specs.Arrays.{within};

use radius_theory::centres::Centres;

// A block's number, and how far its centre lies from a tide.
#[derive(Clone, Copy)]
pub struct Nearest {
    pub block: u8,
    pub distance: u32,
}

// The nearest of the centres to tide t; of equally near ones the first.
fn nearest_to(centres: &Centres, t: usize) -> Nearest
    requires first { 1 ≤ centres.now.count }
    requires t_lt_n { t < centres.now.study.tides.n }
    ensures block_value { result.block
        ≡ nearest_block (within centres.now.study.distances.now centres.now.study.tides.n) (take centres.now.count centres.now.tides) t }
    ensures distance_value { result.distance
        ≡ nearest_distance (within centres.now.study.distances.now centres.now.study.tides.n) (take centres.now.count centres.now.tides) t }
{
    let mut best = 0;
    let mut least = centres.distance(0, t);
    for m in 1..centres.count {
        let distance = centres.distance(m, t);
        if distance < least {
            best = m;
            least = distance;
        }
    }
    Nearest {
        block: (best + 1) as u8,
        distance: least,
    }
}

// Writes for each tide the nearest centre's block number and distance.
pub fn put_nearest(centres: &Centres, nearest: &mut [u8], away: &mut [u32])
    requires first { 1 ≤ centres.now.count }
    requires n_in_bounds { (centres.now.study.tides.n ≤ length nearest.old) × (centres.now.study.tides.n ≤ length away.old) }
    ensures nearest { let study = centres.now.study in nearest.new
        ≡ overwrite study.tides.n (nearest_block (within study.distances.now study.tides.n) (take centres.now.count centres.now.tides)) nearest.old }
    ensures away { let study = centres.now.study in away.new
        ≡ overwrite study.tides.n (nearest_distance (within study.distances.now study.tides.n) (take centres.now.count centres.now.tides)) away.old }
{
    for t in 0..centres.study.tides.n {
        let found = nearest_to(centres, t);
        nearest[t] = found.block;
        away[t] = found.distance;
    }
}
