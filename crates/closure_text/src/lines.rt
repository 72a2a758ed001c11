// The lines of a closure's text, put into lent memory from a place on; the answer is the place after them.
ghost use Rattle.std.specs.Prelude.{◌≡◌, ◌+◌, ◌*◌, ◌≤◌, ◌<◌, length, take};
ghost use mathlib.Core.List.{[], ◌++◌, flat_map};
ghost use Rattle.lists.specs.Lists.{tabulate};
ghost use Rattle.study.specs.Limits.{max_settings, max_distance};
ghost use Rattle.metric_closure.specs.Tables.{InRange};
ghost use Rattle.sheet_text.specs.Text.{spaced};
ghost use Rattle.sheet_text.specs.Putting.{PutText};
ghost use Rattle.closure_text.specs.Text.{number_line, tide_line, lowered_line};
ghost use Rattle.closure_text.specs.Rows.{tide_at, Printable, PrintableTable};

use sheet_text::putting::{put_byte, put_bytes, put_named, put_number};
use study::{MAX_SETTINGS, Minima};

// Numbers, a blank before each.
fn put_rest(out: &mut [u8], at: usize, rest: &[u32]) -> usize
    requires { Printable rest.now at out.old }
    ensures { (result ≤ at + 8 * length rest.now)
        × PutText out.old at (flat_map spaced rest.now) result out.new }
{
    let mut end = at;
    for i in 0..rest.len() {
        let after_blank = put_byte(out, end, b' ');
        end = put_number(out, after_blank, rest[i]);
    }
    end
}

// Numbers on a line of their own.
fn put_line(out: &mut [u8], at: usize, first: u32, rest: &[u32]) -> usize
    requires { (first ≤ max_distance) × Printable rest.now (at + 8) out.old }
    ensures { (result ≤ at + 8 + 8 * length rest.now)
        × PutText out.old at (number_line first rest.now) result out.new }
{
    let after_first = put_number(out, at, first);
    let end = put_rest(out, after_first, rest);
    put_byte(out, end, b'\n')
}

// How many pairs were lowered, as a comment.
pub fn put_lowered(out: &mut [u8], pairs: u32) -> usize
    requires { 32 ≤ length out.old }
    ensures { (result ≤ 32) × PutText out.old 0 (lowered_line pairs) result out.new }
{
    let end = put_named(out, 0, b"# ", pairs, b' ');
    put_bytes(out, end, b"pairs lowered\n")
}

// The b's as numbers of a line.
fn wide_minima(b: [u8; MAX_SETTINGS]) -> [u32; MAX_SETTINGS]
    ensures { (result ≡ b) × InRange max_settings result }
{
    b.map(u32::from)
}

// k, and the minima of as many settings.
pub fn put_head(out: &mut [u8], at: usize, k: u8, minima: Minima) -> usize
    requires { (k ≤ max_settings) × (at + 80 ≤ length out.old) }
    ensures { (result ≤ at + 80)
        × PutText out.old at (number_line k [] ++ number_line minima.b0 (take k minima.b)) result out.new }
{
    let b = minima.b;
    let row = wide_minima(b);
    let settings = usize::from(k);
    let after_k = put_line(out, at, u32::from(k), &row[..0]);
    put_line(out, after_k, u32::from(minima.b0), &row[..settings])
}

// The line of tide t.
fn put_tide(out: &mut [u8], at: usize, settings: &[u8], table: &[u32], n: usize, t: usize) -> usize
    requires printable_table { PrintableTable n settings.now table.now }
    requires t_lt_n { (t < n) × (at + 968 ≤ length out.old) }
    ensures { (result ≤ at + 968)
        × PutText out.old at (tide_line (tide_at n settings.now table.now t)) result out.new }
{
    let start = t * n;
    put_line(out, at, u32::from(settings[t]), &table[start..start + t])
}

// A line for each tide.
pub fn put_tides(out: &mut [u8], at: usize, settings: &[u8], table: &[u32], n: usize) -> usize
    requires printable_table { PrintableTable n settings.now table.now }
    requires n_in_bounds { at + 968 * n ≤ length out.old }
    ensures { PutText out.old at
        (flat_map tide_line (tabulate n (tide_at n settings.now table.now))) result out.new }
{
    let mut end = at;
    for t in 0..n {
        end = put_tide(out, end, settings, table, n, t);
    }
    end
}
