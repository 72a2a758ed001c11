// Packs the study that stands as text on standard input: its study file goes to standard output. Where the text is wrong, one line
// about it goes to standard error, and nothing to standard output.
#![tactic(auto)]

use reading::read_full;
use std::io;
use study_text::pack;
use text_report::write_report;

fn main(rt: HostRuntime) -> io::Result<()> {
    let mut text = [0u8; 131073];
    let n = read_full(&mut rt.stdin(), &mut text)?;
    let mut file = [0u8; 17914];
    let packed = pack(&text[..n], &mut file);
    write_report(&mut rt.stdout(), &mut rt.stderr(), packed, &file)
}
