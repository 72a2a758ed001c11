// The centres at a radius.
ghost use Rattle.std.specs.Prelude.{◌≡◌, ◌<◌};
ghost use Rattle.radius_search.specs.Front.{CentresAt, FarFrom};

use radius_theory::centres::Centres;
use radius_theory::input::Study;

// Whether tide t is farther than g from each of the centres.
fn far_from(centres: &Centres, g: u32, t: usize) -> bool
    requires { t < centres.now.study.tides.n }
    ensures { FarFrom centres.now.study.distances.now centres.now.study.tides.n g t centres.now.count centres.now.tides result }
{
    for m in 0..centres.count {
        if centres.distance(m, t) <= g {
            return false;
        }
    }
    true
}

// Puts the centres at g in the place of those held: a search over many radii has one table, and clears and moves none.
pub fn refill(centres: &mut Centres, g: u32)
    ensures same { centres.new.study ≡ centres.old.study }
    ensures centres_at { CentresAt centres.old.study.distances.now centres.old.study.tides.n g centres.new.count centres.new.tides }
{
    centres.clear();
    for t in 0..centres.study.tides.n {
        if far_from(centres, g, t) {
            centres.push(t);
        }
    }
}

// The centres at g.
pub fn find_centres<'a>(study: &Study<'a>, g: u32) -> Centres<'a>
    ensures same { result.study ≡ study.now }
    ensures centres_at { CentresAt study.now.distances.now study.now.tides.n g result.count result.tides }
{
    let mut centres = Centres::none(study);
    refill(&mut centres, g);
    centres
}
