// A study as text into its study file, through Open, Minima, Enter and Write.
#![tactic(auto)]

use crate::calls::read_text;
use study::{MAX_TIDES, Refusal, TABLE_SIZE};
use study_file::write;
use text_words::{NumeralError, WordError, whole_lines};
use validity::view::View;

pub mod calls;
mod measured;
mod numbers;

ghost use Rattle.std.specs.Prelude.{◌≡◌, length};
ghost use Rattle.validity.specs.Memory.{contents_of};
ghost use Rattle.validity.specs.View.{seen};
ghost use Rattle.access.specs.Passed.{Passed};
ghost use Rattle.study_text.specs.Packing.{error_report, report_of, no_number, ended, pack_answer, pack_leaves, answered, written};
ghost use Rattle.study_text.specs.Steps.{at_line};

// How a text's tides come in: by Enter; or as measured, where the triangle inequality may fail and a tide may be a duplicate.
#[derive(Clone, Copy)]
pub enum Rule {
    Entered,
    Measured,
}

// A line of the text, from 1, and what is wrong there.
#[derive(Clone, Copy)]
pub enum TextError {
    // The line of the last number that the call was given.
    Refused(usize, Refusal),
    NotANumber(usize),
    TooLarge(usize),
    // The line where the text ends.
    Missing(usize),
    // The last whole line.
    TooLong(usize),
}

impl From<WordError> for TextError {
    ghost from_gives = { λ word text. error_report text ≡ no_number word.line word.why };

    fn from(error: WordError) -> TextError {
        match error.why {
            NumeralError::NotANumber => TextError::NotANumber(error.line),
            NumeralError::TooLarge => TextError::TooLarge(error.line),
        }
    }
}

// The longest text that is read.
pub const MAX_TEXT: usize = 131072;

// What a call answered that was given the numbers up to this line.
pub fn at_line<T>(line: usize, answer: Result<T, Refusal>) -> Result<T, TextError>
    ensures { result ≡ at_line line answer }
{
    match answer {
        Ok(x) => Ok(x),
        Err(why) => Err(TextError::Refused(line, why)),
    }
}

// The file of the study that the text ended with, on this line.
fn write_study(view: View, line: usize, file: &mut [u8]) -> Result<usize, TextError>
    requires { Passed (seen view) }
    ensures told { report_of result ≡ answered (ended (contents_of (seen view.entry)) line) (length file.old) }
    ensures leaves { file.new ≡ written (ended (contents_of (seen view.entry)) line) file.old }
{
    at_line(line, write(view, file))
}

// The text's study file over the front of the lent bytes; those past it stay, and all of them where there is no file. Answers the
// file's length in bytes.
pub fn pack(text: &[u8], file: &mut [u8]) -> Result<usize, TextError>
    ensures told { report_of result ≡ pack_answer text.now (length file.old) }
    ensures leaves { file.new ≡ pack_leaves text.now file.old }
{
    if MAX_TEXT < text.len() {
        return Err(TextError::TooLong(whole_lines(text)));
    }
    let mut distances = [0u32; TABLE_SIZE];
    let mut settings = [0u8; MAX_TIDES];
    let end = read_text(text, Rule::Entered, &mut distances, &mut settings)?;
    let view = View {
        dataset: end.dataset,
        distances: &distances,
        settings: &settings,
    };
    write_study(view, end.line, file)
}
