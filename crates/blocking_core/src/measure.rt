// Sizes and diameters of the blocks.
ghost use Rattle.std.specs.Prelude.{◌≡◌, ℕ, ◌+◌, ◌<◌, ◌≤◌, length};
ghost use Rattle.study.specs.Limits.{max_tides};
ghost use Rattle.study.specs.Problem.{labels};
ghost use Rattle.blocking_core.specs.Measured.{farthest_of, widest_of, Measured};

use radius_theory::input::Study;
use study::MAX_TIDES;

// The greatest distance of tide t from an earlier tide of its block, or 0.
fn farthest(study: &Study, list: &[u8], t: usize) -> u32
    requires { (study.now.tides.n ≤ length list.now) × (t < study.now.tides.n) }
    ensures { result ≡ farthest_of study.now.distances.now study.now.tides.n (labels list.now) t t }
{
    let mut best: u32 = 0;
    for u in 0..t {
        let away = study.distance(u, t);
        // without a branch: which of the tides before are of its block follows no pattern
        let inside = if list[u] == list[t] { away } else { 0 };
        best = best.max(inside);
    }
    best
}

// The greatest diameter.
pub fn widest(study: &Study, list: &[u8]) -> u32
    requires { study.now.tides.n ≤ length list.now }
    ensures { let n = study.now.tides.n in result ≡ widest_of study.now.distances.now n (labels list.now) n }
{
    let mut best: u32 = 0;
    for t in 0..study.tides.n {
        best = best.max(farthest(study, list, t));
    }
    best
}

// Of each block, from 0, how many tides it has and its diameter; and the greatest diameter.
#[derive(Clone, Copy)]
pub struct Measures {
    pub sizes: [u8; MAX_TIDES],
    pub diameters: [u32; MAX_TIDES],
    pub widest: u32,
}

// The block of tide t, from 0: in a list blocks are numbered from 1.
#[tactic(auto, unfolding(study::specs::Problem::labels))]
fn block_of(list: &[u8], t: usize) -> usize
    requires inside { (t < length list.now) × (1 ≤ labels list.now t) × (labels list.now t ≤ max_tides) }
    ensures number { labels list.now t ≡ result + 1 }
    ensures below { result < max_tides }
{
    usize::from(list[t]) - 1
}

// The blocks' measures, tide after tide.
pub fn measure(study: &Study, list: &[u8]) -> Measures
    requires n_in_bounds { study.now.tides.n ≤ length list.now }
    requires low { (t : ℕ) → t < study.now.tides.n → 1 ≤ labels list.now t }
    requires high { (t : ℕ) → t < study.now.tides.n → labels list.now t ≤ max_tides }
    ensures { let n = study.now.tides.n in
        Measured study.now.distances.now n (labels list.now) n result.sizes result.diameters result.widest }
{
    let mut sizes: [u8; MAX_TIDES] = [0; MAX_TIDES];
    let mut diameters: [u32; MAX_TIDES] = [0; MAX_TIDES];
    let mut widest: u32 = 0;
    for t in 0..study.tides.n {
        let far = farthest(study, list, t);
        let m = block_of(list, t);
        sizes[m] += 1;
        diameters[m] = diameters[m].max(far);
        widest = widest.max(far);
    }
    Measures {
        sizes,
        diameters,
        widest,
    }
}
