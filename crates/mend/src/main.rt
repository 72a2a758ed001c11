// Mends the measured study that stands as text on standard input: the same study with its distances lowered goes to standard output, as
// text. Where the text is wrong, one line about it goes to standard error, and nothing to standard output.
#![tactic(auto)]

use closure_text::{TEXT_ROOM, mend};
use reading::read_full;
use std::io;
use text_report::write_report;

fn main(rt: HostRuntime) -> io::Result<()> {
    let mut text = [0u8; 131073];
    let n = read_full(&mut rt.stdin(), &mut text)?;
    let mut out = [0u8; TEXT_ROOM];
    let mended = mend(&text[..n], &mut out);
    write_report(&mut rt.stdout(), &mut rt.stderr(), mended, &out)
}
