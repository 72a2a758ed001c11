// The calls that a text makes: Open and Minima from its head, then an Enter for each tide; a measured tide comes in without one.
// The cursor moves past what is read. Where something stops the reading, cursor, record and memory are free.
ghost use Rattle.std.specs.Prelude.{◌≡◌, ◌≤◌, length};
ghost use Rattle.study.specs.Limits.{max_tides, table_size};
ghost use Rattle.validity.specs.Memory.{state_of, contents_of};
ghost use Rattle.study_text.specs.Packing.{minima_from, opening_of, minima_of, tide_of, turn_of, text_of};
ghost use Rattle.text_words.specs.Words.{CursorWithin};
ghost use Rattle.study_text.specs.Reached.{Alive, Midway, Took, Held, Reaches, TurnReached, Ended, Finishes};
ghost use Rattle.narrowing.specs.Narrowing.{narrow_minima};

use crate::measured::measure;
use crate::numbers::{number, read_row};
use crate::{Rule, TextError, at_line};
use dataset::{enter, open, set_minima};
use narrowing::narrow;
use std::array;
use study::{Dataset, MAX_SETTINGS, MAX_TIDES, MAX_USERS, Minima, Refusal};
use text_words::{Cursor, Word, next};

// The record that the text ended with, and the text's last line.
#[derive(Clone, Copy)]
pub struct Finished {
    pub dataset: Dataset,
    pub line: usize,
}

// k.
fn read_open(
    text: &[u8],
    cursor: &mut Cursor,
    dataset: &mut Dataset,
    distances: &mut [u32],
    settings: &mut [u8],
) -> Result<(), TextError>
    requires cursor_within { CursorWithin text.now cursor.old }
    requires table_size_in_bounds { (table_size ≤ length distances.old) × (max_tides ≤ length settings.old) }
    ensures { Reaches Rule.Entered text.now result (state_of dataset.new distances.new settings.new) cursor.new
        (opening_of text.now cursor.old) }
{
    let k = number(text, cursor)?;
    let answer = open(dataset, distances, settings, narrow(k));
    at_line(cursor.line, answer)
}

// b0, and the b's, each as a byte.
fn minima_of(xs: [u32; 9]) -> Minima
    ensures { result ≡ narrow_minima (minima_from xs) }
{
    Minima {
        b0: narrow(xs[0]),
        b: array::from_fn(|j| narrow(xs[j + 1])),
    }
}

// b0, and a b for each setting.
fn read_minima(
    text: &[u8],
    cursor: &mut Cursor,
    dataset: &mut Dataset,
    distances: &[u32],
    settings: &[u8],
) -> Result<(), TextError>
    requires { Alive Rule.Entered text.now (state_of dataset.old distances.now settings.now) cursor.old }
    ensures { Reaches Rule.Entered text.now result (state_of dataset.new distances.now settings.now) cursor.new
        (minima_of text.now (contents_of (state_of dataset.old distances.now settings.now)) cursor.old) }
{
    let mut xs = [0u32; 9];
    let n = usize::from(dataset.k) + 1;
    read_row(text, cursor, &mut xs[..n])?;
    let answer = set_minima(dataset, distances, settings, minima_of(xs));
    at_line(cursor.line, answer)
}

// One more tide, by the rule.
fn take_tide(
    rule: Rule,
    dataset: &mut Dataset,
    distances: &mut [u32],
    settings: &mut [u8],
    setting: u32,
    row: &[u32],
) -> Result<(), Refusal>
    requires { Held rule (state_of dataset.old distances.old settings.old) }
    ensures { Took rule (state_of dataset.old distances.old settings.old) setting row.now
        result (state_of dataset.new distances.new settings.new) }
{
    match rule {
        Rule::Entered => enter(dataset, distances, settings, narrow(setting), row),
        Rule::Measured => measure(dataset, distances, settings, setting, row),
    }
}

// The tide that this setting begins.
fn read_tide(
    text: &[u8],
    rule: Rule,
    cursor: &mut Cursor,
    dataset: &mut Dataset,
    distances: &mut [u32],
    settings: &mut [u8],
    setting: u32,
) -> Result<(), TextError>
    requires { Alive rule text.now (state_of dataset.old distances.old settings.old) cursor.old }
    ensures { Reaches rule text.now result (state_of dataset.new distances.new settings.new) cursor.new
        (tide_of rule text.now (contents_of (state_of dataset.old distances.old settings.old)) setting cursor.old) }
{
    let mut places = [0u32; MAX_TIDES];
    let row = &mut places[..dataset.n];
    read_row(text, cursor, row)?;
    let answer = take_tide(rule, dataset, distances, settings, setting, row);
    at_line(cursor.line, answer)
}

// One more tide; or the text's end, and its line.
fn next_tide(
    text: &[u8],
    rule: Rule,
    cursor: &mut Cursor,
    dataset: &mut Dataset,
    distances: &mut [u32],
    settings: &mut [u8],
) -> Result<Option<usize>, TextError>
    requires { Alive rule text.now (state_of dataset.old distances.old settings.old) cursor.old }
    ensures { TurnReached rule text.now result (state_of dataset.new distances.new settings.new) cursor.new
        (turn_of rule text.now (contents_of (state_of dataset.old distances.old settings.old)) cursor.old) }
{
    let word = next(text, *cursor)?;
    match word {
        Word::Number(setting, after) => {
            *cursor = after;
            read_tide(text, rule, cursor, dataset, distances, settings, setting)?;
            Ok(None)
        }
        Word::End(line) => Ok(Some(line)),
    }
}

// All tides, after the head. Answers the line of the text's end.
fn read_tides(
    text: &[u8],
    rule: Rule,
    cursor: &mut Cursor,
    dataset: &mut Dataset,
    distances: &mut [u32],
    settings: &mut [u8],
) -> Result<usize, TextError>
    requires { Midway rule text.now (state_of dataset.old distances.old settings.old) cursor.old }
    ensures { Ended rule result (state_of dataset.new distances.new settings.new) (text_of rule text.now) }
{
    loop {
        let end = next_tide(text, rule, cursor, dataset, distances, settings)?;
        if let Some(line) = end {
            return Ok(line);
        }
    }
}

// The whole text.
pub fn read_text(
    text: &[u8],
    rule: Rule,
    distances: &mut [u32],
    settings: &mut [u8],
) -> Result<Finished, TextError>
    requires text_len_bound { length text.now ≤ 131072 }
    requires table_size_in_bounds { (table_size ≤ length distances.old) × (max_tides ≤ length settings.old) }
    ensures { Finishes rule result distances.new settings.new (text_of rule text.now) }
{
    let mut cursor = Cursor { at: 0, line: 1 };
    let mut dataset = Dataset {
        k: 1,
        n: 0,
        minima: Minima {
            b0: 1,
            b: [0; MAX_SETTINGS],
        },
        withdrawn: [0; MAX_USERS],
    };
    read_open(text, &mut cursor, &mut dataset, distances, settings)?;
    read_minima(text, &mut cursor, &mut dataset, distances, settings)?;
    let line = read_tides(text, rule, &mut cursor, &mut dataset, distances, settings)?;
    Ok(Finished { dataset, line })
}
