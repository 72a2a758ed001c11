// Balls, and a bound below which no radius has an assignment: the first tide is always a centre, so its ball must be sufficient.
ghost use Rattle.std.specs.Prelude.{◌≡◌, ◌<◌};
ghost use Rattle.promise.specs.Met.{met};
ghost use Rattle.radius_theory.specs.Arrays.{ball};
ghost use Rattle.radius_search.specs.Bounds.{Bounded};
ghost use Rattle.radius_search.specs.Tally.{Tallied};

use crate::counts::Tally;
use radius_theory::input::Study;
use study::MAX_DISTANCE;

// Counts the tides at most g from tide c.
fn tally_ball(study: &Study, c: usize, g: u32) -> Tally
    requires { c < study.now.tides.n }
    ensures { Tallied study.now.tides.settings.now (ball study.now.distances.now c g) study.now.tides.n result.found result.by_setting }
{
    let mut tally = Tally {
        found: 0,
        by_setting: [0; 9],
    };
    for t in 0..study.tides.n {
        tally.add(study.tides.settings[t], study.distance(c, t) <= g);
    }
    tally
}

// Whether the tides at most g from tide c are sufficient.
pub fn ball_meets(study: &Study, c: usize, g: u32) -> bool
    requires { c < study.now.tides.n }
    ensures { result ≡ met study.now.tides (ball study.now.distances.now c g) }
{
    tally_ball(study, c, g).meets(study.tides.minima)
}

// A radius below which none has an assignment.
pub fn lower_bound(study: &Study) -> u32
    requires { 0 < study.now.tides.n }
    ensures { Bounded study.now.distances.now study.now.tides.n (met study.now.tides) result }
{
    let mut low: u32 = 0;
    let mut high: u32 = MAX_DISTANCE;
    while low < high {
        let mid = low + (high - low) / 2;
        if ball_meets(study, 0, mid) {
            high = mid;
        } else {
            low = mid + 1;
        }
    }
    low
}
