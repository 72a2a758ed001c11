// What an accepted Block writes and answers.
ghost use Rattle.std.specs.Prelude.{◌≡◌, length};
ghost use Rattle.study.specs.Refusals.{value};
ghost use Rattle.validity.specs.View.{seen};
ghost use Rattle.access.specs.Calls.{reply, list_after};
ghost use Rattle.blocking.specs.Calls.{makes_blocks, figure_numbers};
ghost use Rattle.blocking.specs.Accepted.{BlockAccepted};
ghost use Rattle.blocking.specs.Rows.{Lending, RowsOf};

use crate::block::{BlockRows, Computed};
use crate::front::put_centres;
use crate::input::study_of;
use blocking_core::kernel::block_rows;
use radius_search::problem::Problem;
use study::{Figures, MAX_TIDES};
use validity::view::View;

// What an accepted Block answers, the rows of its blocks, and its list.
pub fn compute(view: View, list: &mut [u8], room: usize) -> Computed
    requires { BlockAccepted (seen view) (length list.old) room }
    ensures lending { Lending room (λ records. value (figure_numbers result.figures) ≡ reply (seen view.entry) (makes_blocks list.old records)) }
    ensures rows_of { RowsOf (seen view.entry) (makes_blocks list.old) room result.rows }
    ensures lending_2 { Lending room (λ records. list.new ≡ list_after (seen view.entry) (makes_blocks list.old records)) }
{
    let problem = Problem {
        study: study_of(view),
    };
    let rows = block_rows(&problem, list);
    let count = rows.centres.count;
    let mut centres: [u8; MAX_TIDES] = [0; MAX_TIDES];
    put_centres(&rows.centres, &mut centres);
    let measures = rows.measures;
    let tides = measures.sizes;
    let diameters = measures.diameters;
    Computed {
        figures: Figures {
            blocks: count,
            radius: rows.radius,
            widest: measures.widest,
        },
        rows: BlockRows {
            count,
            centres,
            tides,
            diameters,
        },
    }
}
