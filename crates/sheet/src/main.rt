// Reads a study file from standard input and prints its sheet.
#![tactic(auto)]

ghost use Rattle.std.specs.Prelude.{◌≤◌, take, OnOk};
ghost use Rattle.std.specs.Io.KnownBytes.{Appends};

use reading::read_full;
use std::io;
use std::io::Write;

// The first `length` bytes.
fn print<O: Write>(out: &mut O, bytes: [u8; 2855], length: usize) -> io::Result<()>
    requires { length ≤ 2855 }
    ensures { OnOk result (Appends (O.contents out.old) (O.contents out.new) (take length bytes)) }
{
    out.write_all(&bytes[..length])
}

fn main(rt: HostRuntime) -> io::Result<()> {
    // one byte more than the longest file decides (`Decided` of sheet_of_file/specs/Limit.antt)
    let mut input = [0u8; 17915];
    let count = read_full(&mut rt.stdin(), &mut input)?;
    let text = sheet_of_file::sheet(&input[..count]);
    let bytes = text.bytes;
    print(&mut rt.stdout(), bytes, text.length)
}
