// Merges the two study files that the arguments name (document 02, 2.9: two books joined). The pairs stand as text on standard input: on a line of
// its own each, the tide's number in the first study and in the second. The merged study file goes to standard output. Where something is
// wrong, one line about it goes to standard error, and nothing to standard output.
#![tactic(auto)]

ghost use Rattle.std.specs.Prelude.{OnOk};
ghost use Rattle.std.specs.Io.{ReadsAtMost};
ghost use Rattle.std.specs.Io.KnownBytes.{Appends};
ghost use Rattle.text_report.specs.Report.{said};
ghost use Rattle.join.specs.Report.{words_of, output_of, error_of};

use merge_text::{Fault, JoinError, join};
use reading::read_full;
use std::env::Env;
use std::fs::File;
use std::io::Write;
use std::{fs, io};
use text_report::{say, say_refused, write_front};

// The file that argument i names, opened; none where that can't be done.
fn open(rt: &HostRuntime, i: usize) -> Option<File> {
    let mut name = [0u8; 4096];
    let length = rt.arg(i, &mut name).ok()?;
    let path = str::from_utf8(&name[..length]).ok()?;
    fs::open(rt, path).ok()
}

// The file's first bytes, as many as there is room for.
fn read_file(mut file: File, bytes: &mut [u8]) -> io::Result<usize>
    ensures { ReadsAtMost result bytes.new }
{
    read_full(&mut file, bytes)
}

// A line of the pairs' text, and what is wrong there.
fn say_fault<E: Write>(err: &mut E, line: usize, fault: Fault) -> io::Result<()>
    ensures { OnOk result (Appends (E.contents err.old) (E.contents err.new) (said line (words_of fault))) }
{
    match fault {
        Fault::NotANumber => say(err, line, b"not a number\n"),
        Fault::TooLarge => say(err, line, b"number too large\n"),
        Fault::Missing => say(err, line, b"number missing\n"),
        Fault::TooMany => say(err, line, b"more than two numbers\n"),
        Fault::TooLong => say(err, line, b"text too long\n"),
    }
}

// As many of the bytes as the merged file has, or what is wrong.
fn write_report<O: Write, E: Write>(
    out: &mut O,
    err: &mut E,
    joined: Result<usize, JoinError>,
    bytes: &[u8],
) -> io::Result<()>
    ensures output { OnOk result (Appends (O.contents out.old) (O.contents out.new) (output_of joined bytes.now)) }
    ensures error { OnOk result (Appends (E.contents err.old) (E.contents err.new) (error_of joined)) }
{
    match joined {
        Ok(length) => write_front(out, bytes, length),
        Err(JoinError::FirstRefused(why)) => say_refused(err, b"first: ", why),
        Err(JoinError::SecondRefused(why)) => say_refused(err, b"second: ", why),
        Err(JoinError::WrongLine(line, fault)) => say_fault(err, line, fault),
        Err(JoinError::Refused(why)) => say_refused(err, b"", why),
    }
}

// The merge of the two opened files.
fn join_files(rt: &HostRuntime, first: File, second: File) -> io::Result<()> {
    // one byte more than the longest file decides (`Decided` of merge_text/specs/Limit.antt)
    let mut a = [0u8; 17915];
    let n = read_file(first, &mut a)?;
    let mut b = [0u8; 17915];
    let m = read_file(second, &mut b)?;
    let mut pairs = [0u8; 131073];
    let count = read_full(&mut rt.stdin(), &mut pairs)?;
    let mut file = [0u8; 17914];
    let joined = join(&a[..n], &b[..m], &pairs[..count], &mut file);
    write_report(&mut rt.stdout(), &mut rt.stderr(), joined, &file)
}

fn main(rt: HostRuntime) -> io::Result<()> {
    let Some(first) = open(&rt, 1) else {
        return rt.stderr().write_all(b"first: cannot be opened\n");
    };
    let Some(second) = open(&rt, 2) else {
        return rt.stderr().write_all(b"second: cannot be opened\n");
    };
    join_files(&rt, first, second)
}
