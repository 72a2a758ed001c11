// Numbers that the text must have next. The cursor moves past them; it is free where something stops the reading.
ghost use Rattle.std.specs.Prelude.{◌≡◌, length};
ghost use Rattle.study_text.specs.Packing.{number_of, numbers_of};
ghost use Rattle.study_text.specs.Steps.{given_of, read_of};
ghost use Rattle.text_words.specs.Words.{CursorWithin};

use crate::TextError;
use text_words::{Cursor, Word, next};

// One number.
pub fn number(text: &[u8], cursor: &mut Cursor) -> Result<u32, TextError>
    requires { CursorWithin text.now cursor.old }
    ensures { given_of result cursor.new ≡ number_of text.now cursor.old }
{
    let word = next(text, *cursor)?;
    match word {
        Word::Number(x, after) => {
            *cursor = after;
            Ok(x)
        }
        Word::End(line) => Err(TextError::Missing(line)),
    }
}

// As many numbers as the row is long; the row is free where something stops the reading.
pub fn read_row(text: &[u8], cursor: &mut Cursor, row: &mut [u32]) -> Result<(), TextError>
    requires { CursorWithin text.now cursor.old }
    ensures { read_of result row.new cursor.new ≡ numbers_of text.now (length row.old) cursor.old }
{
    for i in 0..row.len() {
        row[i] = number(text, cursor)?;
    }
    Ok(())
}
