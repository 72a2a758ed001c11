// The next radius to look at: the least above g of some of the distances.
ghost use Rattle.std.specs.Prelude.{◌≡◌, ℕ, ◌<◌};
ghost use Rattle.radius_theory.specs.Radii.{no_radius};
ghost use Rattle.radius_search.specs.Next.{Next, InRow, InLater, InPairs, InAll, FirstFrom};

use radius_theory::centres::Centres;
use radius_theory::input::Study;
use study::MAX_DISTANCE;

// One more than the greatest distance: no radius is so great.
const NO_RADIUS: u32 = MAX_DISTANCE + 1;

// The lesser of best and x, where x is above g.
fn closer(x: u32, g: u32, best: u32) -> u32
    ensures { Next (λ (y : ℕ). y ≡ x) g best result }
{
    if x <= g { best } else { x.min(best) }
}

// Over the distances of tide c.
fn next_in_row(study: &Study, c: usize, g: u32, start: u32) -> u32
    requires { c < study.now.tides.n }
    ensures { Next (InRow study.now.distances.now c study.now.tides.n) g start result }
{
    let mut best = start;
    for t in 0..study.tides.n {
        best = closer(study.distance(c, t), g, best);
    }
    best
}

// Over the distances of centre i from the later ones.
fn next_later(centres: &Centres, i: usize, g: u32, start: u32) -> u32
    requires { i < centres.now.count }
    ensures { Next (InLater centres.now.study.distances.now centres.now.tides i centres.now.count) g start result }
{
    let mut best = start;
    for m in i + 1..centres.count {
        best = closer(centres.distance(i, usize::from(centres.tides[m])), g, best);
    }
    best
}

// Over the distances between any two centres.
pub fn next_in_pairs(centres: &Centres, g: u32) -> u32
    ensures { Next (InPairs centres.now.study.distances.now centres.now.tides centres.now.count centres.now.count) g no_radius result }
{
    let mut best = NO_RADIUS;
    for i in 0..centres.count {
        best = next_later(centres, i, g, best);
    }
    best
}

// Over all distances.
fn next_of_all(study: &Study, g: u32) -> u32
    ensures { Next (InAll study.now.distances.now study.now.tides.n) g no_radius result }
{
    let mut best = NO_RADIUS;
    for c in 0..study.tides.n {
        best = next_in_row(study, c, g, best);
    }
    best
}

// The least candidate from g on, or NO_RADIUS where there is none.
pub fn first_from(study: &Study, g: u32) -> u32
    ensures { FirstFrom study.now.distances.now study.now.tides.n g result }
{
    if g == 0 {
        return 0;
    }
    next_of_all(study, g - 1)
}
