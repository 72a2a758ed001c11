// The lines of the sheet after its heading.
ghost use mathlib.Core.List.{flat_map};
ghost use Rattle.std.specs.Prelude.{◌+◌, ◌≤◌, length, take};
ghost use Rattle.study.specs.Limits.{max_tides};
ghost use Rattle.sheet_text.specs.Text.{spaced, line, lines, closing};
ghost use Rattle.sheet_text.specs.Putting.{PutText};

use crate::putting::{put_byte, put_bytes, put_field, put_named, put_number};
use study::{BlockRecord, MAX_TIDES, MAX_USERS};

// The line of one block.
fn put_line(out: &mut [u8], at: usize, number: u32, block: BlockRecord) -> usize
    requires { (number ≤ max_tides) × (at + 23 ≤ length out.old) }
    ensures { (result ≤ at + 23) × PutText out.old at (line number block) result out.new }
{
    let after_number = put_field(out, at, number, b' ');
    let after_centre = put_field(out, after_number, block.centre as u32, b' ');
    let after_tides = put_field(out, after_centre, block.tides as u32, b' ');
    put_field(out, after_tides, block.diameter, b'\n')
}

// A line for each block that has a record.
pub fn put_lines(
    out: &mut [u8],
    at: usize,
    blocks: usize,
    records: [BlockRecord; MAX_TIDES],
) -> usize
    requires { at + 2760 ≤ length out.old }
    ensures { (result ≤ at + 2760) × PutText out.old at (lines 1 (take blocks records)) result out.new }
{
    let mut end = at;
    let shown = &records[..blocks.min(MAX_TIDES)];
    for (i, block) in shown.iter().enumerate() {
        end = put_line(out, end, (i + 1) as u32, *block);
    }
    end
}

// Each user's withdrawals, a blank before each.
fn put_counts(out: &mut [u8], at: usize, counts: [u16; MAX_USERS]) -> usize
    requires { at + 24 ≤ length out.old }
    ensures { (result ≤ at + 24) × PutText out.old at (flat_map spaced counts) result out.new }
{
    let mut end = at;
    for count in counts {
        let after_blank = put_byte(out, end, b' ');
        end = put_number(out, after_blank, u32::from(count));
    }
    end
}

// The last line.
pub fn put_closing(
    out: &mut [u8],
    at: usize,
    radius: u32,
    widest: u32,
    withdrawn: [u16; MAX_USERS],
) -> usize
    requires { at + 69 ≤ length out.old }
    ensures { (result ≤ at + 69) × PutText out.old at (closing radius widest withdrawn) result out.new }
{
    let after_radius = put_named(out, at, b"reach ", radius, b' ');
    let after_widest = put_named(out, after_radius, b"widest ", widest, b' ');
    let after_word = put_bytes(out, after_widest, b"withdrawn");
    let after_counts = put_counts(out, after_word, withdrawn);
    put_byte(out, after_counts, b'\n')
}
