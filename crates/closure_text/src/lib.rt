// A measured study as text into the text of its metric closure: the same study with its distances lowered (document 02, 2.1: mended).
#![tactic(auto)]

use crate::lines::{put_head, put_lowered, put_tides};
use crate::table::{close_table, fill_table};
use study::{Dataset, MAX_TIDES, Refusal, TABLE_SIZE};
use study_text::calls::read_text;
use study_text::{Rule, TextError};
use text_words::whole_lines;
use validity::view::View;

mod lines;
mod table;

ghost use Rattle.std.specs.Prelude.{◌≡◌, ◌++◌, ◌≤◌, length};
ghost use Rattle.study.specs.Limits.{max_settings};
ghost use Rattle.validity.specs.Memory.{study_of, contents_of};
ghost use Rattle.validity.specs.View.{seen};
ghost use Rattle.sheet_text.specs.Putting.{PutText};
ghost use Rattle.study_text.specs.Packing.{report_of, ended};
ghost use Rattle.study_text.specs.Reached.{Measuring};
ghost use Rattle.closure_text.specs.Text.{study_text, lowered_line, closure_text, text_room, reported, printed, mend_answer, mend_leaves};
ghost use Rattle.closure_text.specs.Rows.{study_at, PrintableTable};

// Room for the closure's text of any study.
pub const TEXT_ROOM: usize = 131072;

// The comment, and the study with the distances of a table, in the front of the lent bytes; the answer is their length.
fn put_study(out: &mut [u8], pairs: u32, dataset: Dataset, settings: &[u8], table: &[u32]) -> usize
    requires printable_table { PrintableTable dataset.n settings.now table.now }
    requires k_le_max_settings { (dataset.k ≤ max_settings) × (text_room ≤ length out.old) }
    ensures { PutText out.old 0
        (lowered_line pairs ++ study_text (study_at dataset settings.now table.now)) result out.new }
{
    let after_comment = put_lowered(out, pairs);
    let minima = dataset.minima;
    let after_head = put_head(out, after_comment, dataset.k, minima);
    put_tides(out, after_head, settings, table, dataset.n)
}

// The text of the closure of the study in memory.
fn put_closure(out: &mut [u8], view: View) -> usize
    requires measuring { Measuring (seen view) }
    requires text_room_in_bounds { text_room ≤ length out.old }
    ensures { PutText out.old 0 (closure_text (study_of (seen view.entry))) result out.new }
{
    let n = view.dataset.n;
    let mut table = [0u32; TABLE_SIZE];
    fill_table(&mut table, view.distances, n);
    let pairs = close_table(&mut table, n);
    put_study(out, pairs, view.dataset, view.settings, &table)
}

// The closure of the study that the text ended with, on this line.
fn write_closure(view: View, line: usize, out: &mut [u8]) -> Result<usize, TextError>
    requires { Measuring (seen view) }
    ensures told { report_of result ≡ reported (ended (contents_of (seen view.entry)) line) (length out.old) }
    ensures leaves { out.new ≡ printed (ended (contents_of (seen view.entry)) line) out.old }
{
    if out.len() < TEXT_ROOM {
        return Err(TextError::Refused(line, Refusal::ShortMemory));
    }
    Ok(put_closure(out, view))
}

// The closure's text over the front of the lent bytes; those past it stay, and all of them where something is wrong with the text.
// Answers the text's length in bytes.
pub fn mend(text: &[u8], out: &mut [u8]) -> Result<usize, TextError>
    ensures told { report_of result ≡ mend_answer text.now (length out.old) }
    ensures leaves { out.new ≡ mend_leaves text.now out.old }
{
    if TEXT_ROOM < text.len() {
        return Err(TextError::TooLong(whole_lines(text)));
    }
    let mut distances = [0u32; TABLE_SIZE];
    let mut settings = [0u8; MAX_TIDES];
    let end = read_text(text, Rule::Measured, &mut distances, &mut settings)?;
    let view = View {
        dataset: end.dataset,
        distances: &distances,
        settings: &settings,
    };
    write_closure(view, end.line, out)
}
