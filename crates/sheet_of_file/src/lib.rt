// The printed sheet of any bytes: they are read as a study file, its tides are blocked, and the answer becomes text.
#![tactic(auto)]

ghost use Rattle.std.specs.Prelude.{◌≡◌, ◌≤◌};
ghost use Rattle.study.specs.Refusals.{numbered};
ghost use Rattle.validity.specs.View.{seen};
ghost use Rattle.sheet_text.specs.Text.{refused_text, laid_out};
ghost use Rattle.sheet_of_file.specs.Sheet.{sheet_of, blocked_text};

use blocking::records::{Blocking, block_by_value};
use blocking::storing::NO_RECORD;
use sheet_text::{Text, sheet_text};
use study::{Dataset, MAX_SETTINGS, MAX_TIDES, MAX_USERS, Minima, Refusal, TABLE_SIZE};
use validity::view::View;

// A record to read over: Read takes any.
pub fn blank() -> Dataset {
    let minima = Minima {
        b0: 0,
        b: [0; MAX_SETTINGS],
    };
    Dataset {
        k: 0,
        n: 0,
        minima,
        withdrawn: [0; MAX_USERS],
    }
}

// No block is printed of a refusal, so its records are blank.
fn refused_sheet(why: Refusal) -> Text
    ensures { (result.length ≤ 2855) × (result ≡ laid_out (refused_text (numbered why))) }
{
    sheet_text(Err(why), [NO_RECORD; MAX_TIDES], [0; MAX_USERS])
}

// The sheet of what Block answers.
fn blocked_sheet(view: View) -> Text
    ensures { (result.length ≤ 2855) × (result ≡ laid_out (blocked_text (seen view.entry))) }
{
    let mut list = [0u8; MAX_TIDES];
    let Blocking { answer, records } = block_by_value(view, &mut list);
    sheet_text(answer, records, view.dataset.withdrawn)
}

// The sheet of any bytes: a study file's blocks, or why there are none.
pub fn sheet(file: &[u8]) -> Text
    ensures fits { result.length ≤ 2855 }
    ensures text { result ≡ laid_out (sheet_of file.now) }
{
    let mut dataset = blank();
    let mut distances = [0u32; TABLE_SIZE];
    let mut settings = [0u8; MAX_TIDES];
    if let Err(why) = study_file::read(&mut dataset, &mut distances, &mut settings, file) {
        return refused_sheet(why);
    }
    blocked_sheet(View {
        dataset,
        distances: &distances,
        settings: &settings,
    })
}
