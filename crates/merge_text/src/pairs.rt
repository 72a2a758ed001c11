// The pairs of a merge as text: each on a line of its own, the tide's number in the first study and its number in the second.
ghost use Rattle.std.specs.Prelude.{◌≡◌, ◌≤◌, length};
ghost use Rattle.text_words.specs.Words.{next_of, CursorWithin};
ghost use Rattle.merge_text.specs.Pairs.{fault_of, on_line, pair_from, step_of};
ghost use Rattle.merge_text.specs.Steps.{Lists};

use crate::Fault;
use narrowing::narrow;
use text_words::{Cursor, NumeralError, Word, next, whole_lines};

// A pair, and the place after it.
#[derive(Clone, Copy)]
pub struct Pair {
    pub first: u8,
    pub second: u8,
    pub after: Cursor,
}

// A line, and what is wrong there.
#[derive(Clone, Copy)]
pub struct WrongLine {
    pub line: usize,
    pub fault: Fault,
}

// What stands on line `at`, where `line` has one number so far.
fn on_line(
    line: usize,
    at: usize,
    step: Result<Option<Pair>, WrongLine>,
) -> Result<Option<Pair>, WrongLine>
    ensures { result ≡ on_line line at step }
{
    if at == line {
        return step;
    }
    Err(WrongLine {
        line,
        fault: Fault::Missing,
    })
}

// A word that is no number.
fn fault_of(why: NumeralError) -> Fault
    ensures { result ≡ fault_of why }
{
    match why {
        NumeralError::NotANumber => Fault::NotANumber,
        NumeralError::TooLarge => Fault::TooLarge,
    }
}

// The pair that this number begins; it stands just before the place.
fn end_pair(text: &[u8], first: u32, from: Cursor) -> Result<Option<Pair>, WrongLine>
    requires { CursorWithin text.now from }
    ensures { result ≡ pair_from first from.line (next_of text.now from) }
{
    let line = from.line;
    match next(text, from) {
        Ok(Word::Number(second, after)) => {
            let pair = Pair {
                first: narrow(first),
                second: narrow(second),
                after,
            };
            on_line(line, after.line, Ok(Some(pair)))
        }
        Ok(Word::End(_)) => Err(WrongLine {
            line,
            fault: Fault::Missing,
        }),
        Err(error) => {
            let wrong = WrongLine {
                line,
                fault: fault_of(error.why),
            };
            on_line(line, error.line, Err(wrong))
        }
    }
}

// The next pair; none at the text's end. `last` is the line of the last pair, 0 before the first.
fn next_pair(text: &[u8], last: usize, from: Cursor) -> Result<Option<Pair>, WrongLine>
    requires { CursorWithin text.now from }
    ensures { result ≡ step_of text.now last from }
{
    match next(text, from) {
        Ok(Word::Number(first, after)) => {
            if after.line == last {
                return Err(WrongLine {
                    line: last,
                    fault: Fault::TooMany,
                });
            }
            end_pair(text, first, after)
        }
        Ok(Word::End(_)) => Ok(None),
        Err(error) => Err(WrongLine {
            line: error.line,
            fault: fault_of(error.why),
        }),
    }
}

// All pairs of the text, into the front of two lists; answers how many. A pair takes two bytes at least, so that the lists have a place for each.
pub fn list_pairs(text: &[u8], firsts: &mut [u8], seconds: &mut [u8]) -> Result<usize, WrongLine>
    requires { (65536 ≤ length firsts.old) × (65536 ≤ length seconds.old) }
    ensures { Lists text.now result firsts.new seconds.new }
{
    if 131072 < text.len() {
        return Err(WrongLine {
            line: whole_lines(text),
            fault: Fault::TooLong,
        });
    }
    let mut cursor = Cursor { at: 0, line: 1 };
    let mut last: usize = 0;
    let mut count: usize = 0;
    loop {
        let Some(pair) = next_pair(text, last, cursor)? else {
            return Ok(count);
        };
        firsts[count] = pair.first;
        seconds[count] = pair.second;
        count += 1;
        last = pair.after.line;
        cursor = pair.after;
    }
}
