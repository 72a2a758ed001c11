// Which tide may go to which block: a row of MAX_TIDES places for each block.
ghost use Rattle.std.specs.Prelude.{◌<◌, ◌≤◌, length};
ghost use Rattle.study.specs.Limits.{max_tides, table_size};
ghost use Rattle.radius_search.specs.Table.{Table, RowTo};

use radius_theory::centres::Centres;
use radius_theory::input::Study;
use study::MAX_TIDES;

// Row m: the tides at most g from tide c, the centre of block m.
fn allow_block(study: &Study, c: usize, g: u32, m: usize, allowed: &mut [u8])
    requires { (c < study.now.tides.n) × (m < max_tides) × (table_size ≤ length allowed.old) }
    ensures { RowTo study.now.distances.now c g m study.now.tides.n allowed.old allowed.new }
{
    for t in 0..study.tides.n {
        allowed[m * MAX_TIDES + t] = u8::from(study.distance(c, t) <= g);
    }
}

// Which tides may go to each block: those at most g from its centre.
pub fn allow(centres: &Centres, g: u32, allowed: &mut [u8])
    requires { table_size ≤ length allowed.old }
    ensures { Table centres.now.study.distances.now centres.now.tides g centres.now.count centres.now.study.tides.n allowed.old allowed.new }
{
    let study = centres.study;
    for m in 0..centres.count {
        allow_block(&study, usize::from(centres.tides[m]), g, m, allowed);
    }
}
