// The text of the printed sheet: for any answer of Block, any records and any counts of withdrawals.
#![tactic(auto)]

use crate::lines::{put_closing, put_lines};
use crate::putting::{put_bytes, put_refusal};
use study::{BlockRecord, Figures, MAX_TIDES, MAX_USERS, Refusal};

mod lines;
pub mod putting;

ghost use Rattle.std.specs.Prelude.{◌≡◌, ◌≤◌, length};
ghost use Rattle.study.specs.Calls.{blocked_of};
ghost use Rattle.sheet_text.specs.Text.{sheet_text, laid_out};
ghost use Rattle.sheet_text.specs.Putting.{PutText};

// The text is the first `length` bytes, zeros stand after it: at most 26 of heading, 120 lines of 23 and a last line of 69.
#[derive(Clone, Copy)]
pub struct Text {
    pub bytes: [u8; 2855],
    pub length: usize,
}

// The sheet into the front of lent memory; the answer is its length.
fn put_sheet(
    out: &mut [u8],
    answer: Result<Figures, Refusal>,
    records: [BlockRecord; MAX_TIDES],
    withdrawn: [u16; MAX_USERS],
) -> usize
    requires { 2855 ≤ length out.old }
    ensures { (result ≤ 2855) × PutText out.old 0 (sheet_text (blocked_of answer) records withdrawn) result out.new }
{
    match answer {
        Err(why) => put_refusal(out, 0, why),
        Ok(figures) => {
            let after_heading = put_bytes(out, 0, b"block centre tides widest\n");
            let after_lines = put_lines(out, after_heading, figures.blocks, records);
            put_closing(out, after_lines, figures.radius, figures.widest, withdrawn)
        }
    }
}

// The printed sheet by value, as document 01 lays it out, with a count for each user (document 02, 2.7).
pub fn sheet_text(
    answer: Result<Figures, Refusal>,
    records: [BlockRecord; MAX_TIDES],
    withdrawn: [u16; MAX_USERS],
) -> Text
    ensures fits { result.length ≤ 2855 }
    ensures text { result ≡ laid_out (sheet_text (blocked_of answer) records withdrawn) }
{
    let mut bytes = [0u8; 2855];
    let length = put_sheet(&mut bytes, answer, records, withdrawn);
    Text { bytes, length }
}
