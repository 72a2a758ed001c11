// What a program that reads a text writes: what it made of the text, or what is wrong with the text.
#![tactic(auto)]

ghost use Rattle.std.specs.Prelude.{◌≡◌, take, OnOk};
ghost use Rattle.std.specs.Io.KnownBytes.{Appends};
ghost use Rattle.text_report.specs.Report.{said, said_refused, output_of, error_of};

use std::io;
use std::io::Write;
use study::Refusal;
use study_text::TextError;

// A line of the text, and what is wrong there.
pub fn say<E: Write>(err: &mut E, line: usize, words: &[u8]) -> io::Result<()>
    ensures { OnOk result (Appends (E.contents err.old) (E.contents err.new) (said line words.now)) }
{
    write!(err, "line {line}: ")?;
    err.write_all(words)
}

// What is refused, and the refusal's number.
pub fn say_refused<E: Write>(err: &mut E, what: &[u8], why: Refusal) -> io::Result<()>
    ensures { OnOk result (Appends (E.contents err.old) (E.contents err.new) (said_refused what.now why)) }
{
    let number = why.number();
    err.write_all(what)?;
    writeln!(err, "refused {number}")
}

// The first n bytes; all where there are fewer.
fn front(bytes: &[u8], n: usize) -> &[u8]
    ensures { result.now ≡ take n bytes.now }
{
    if n <= bytes.len() {
        return &bytes[..n];
    }
    bytes
}

// The first n bytes; all where there are fewer.
pub fn write_front<O: Write>(out: &mut O, bytes: &[u8], n: usize) -> io::Result<()>
    ensures { OnOk result (Appends (O.contents out.old) (O.contents out.new) (take n bytes.now)) }
{
    out.write_all(front(bytes, n))
}

// As many of the bytes as were made of the text, to the output. Where the text is wrong, one line about it goes to the error output,
// and nothing to the output.
pub fn write_report<O: Write, E: Write>(
    out: &mut O,
    err: &mut E,
    made: Result<usize, TextError>,
    bytes: &[u8],
) -> io::Result<()>
    ensures output { OnOk result (Appends (O.contents out.old) (O.contents out.new) (output_of made bytes.now)) }
    ensures error { OnOk result (Appends (E.contents err.old) (E.contents err.new) (error_of made)) }
{
    match made {
        Ok(length) => write_front(out, bytes, length),
        Err(TextError::Refused(line, why)) => {
            say(err, line, b"")?;
            say_refused(err, b"", why)
        }
        Err(TextError::NotANumber(line)) => say(err, line, b"not a number\n"),
        Err(TextError::TooLarge(line)) => say(err, line, b"number too large\n"),
        Err(TextError::Missing(line)) => say(err, line, b"number missing\n"),
        Err(TextError::TooLong(line)) => say(err, line, b"text too long\n"),
    }
}
