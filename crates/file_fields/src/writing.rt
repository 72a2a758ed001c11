// A file is written over the front of the lent bytes, field after field. A byte's first bits clear it, so that zero bits fill the last one.
ghost use Rattle.std.specs.Prelude.{◌≡◌, cond, ◌+◌, ◌*◌, ◌%◌, ◌^◌, ◌≤◌, ◌<◌, eqb, length};
ghost use mathlib.Core.List.{[], ◌∷◌, map, flat_map};
ghost use Rattle.lists.specs.Lists.{tabulate};
ghost use Rattle.study.specs.Limits.{max_tides, max_settings, max_users};
ghost use Rattle.file_format.specs.Bits.{field, bits_of};
ghost use Rattle.file_format.specs.File.{tide_fields, bit_length, byte_length};
ghost use Rattle.validity.specs.Memory.{tide_of, contents_of};
ghost use Rattle.validity.specs.View.{seen};
ghost use Rattle.file_fields.specs.Writing.{InByte, Adds};
ghost use Rattle.file_fields.specs.Putting.{PutFields, RunInside, Writable, TideInside, head_fields, file_fields};

use crate::length::bit_length;
use study::{Dataset, MAX_TIDES, MAX_USERS};
use validity::view::View;

// The bits before the counts, and before the minima.
const COUNTS_AT: usize = 26;

const MINIMA_AT: usize = 90;

// The bytes of a file of n tides, the last one filled with zero bits.
pub fn byte_length(k: usize, n: usize) -> usize
    requires { (k ≤ max_settings) × (n ≤ max_tides) }
    ensures { (result ≡ byte_length max_users k n) × (result ≤ 17914) }
{
    (bit_length(MAX_USERS, k, n) + 7) / 8
}

// What a byte keeps when its bits from j on are written.
fn kept(x: u8, j: usize) -> u32
    ensures { (result ≡ cond (eqb j 0) 0 x) × (result < 256) }
{
    if j == 0 { 0 } else { u32::from(x) }
}

// The last `count` bits of v, inside one byte.
fn put_part(file: &mut [u8], at: usize, count: usize, v: u32)
    requires { InByte file.old at count v }
    ensures { Adds file.old at (bits_of count v) file.new }
{
    let i = at / 8;
    let j = at % 8;
    let old = kept(file[i], j);
    let new = (old + (v << (8 - j - count))) % 256;
    file[i] = new as u8;
}

// How many of the bits that are left the byte at a position takes.
fn taken(at: usize, left: usize) -> usize
    requires { 1 ≤ left }
    ensures { (1 ≤ result) × (result ≤ left) × (at % 8 + result ≤ 8) }
{
    left.min(8 - at % 8)
}

// A field, most significant bit first, byte by byte.
fn put_field(file: &mut [u8], at: usize, width: usize, value: u32)
    requires { (width ≤ 20) × (at + width ≤ 8 * length file.old) × (at < 2 ^ 63) }
    ensures { PutFields file.old at (field width value ∷ []) file.new }
{
    let mut done: usize = 0;
    while done < width {
        let count = taken(at + done, width - done);
        let rest = width - done - count;
        put_part(file, at + done, count, (value >> rest) % (1 << count));
        done += count;
    }
}

// The fields before the counts.
fn put_head(file: &mut [u8], dataset: Dataset)
    requires { (12 ≤ length file.old) × (dataset.n ≤ max_tides) }
    ensures { PutFields file.old 0 (head_fields dataset) file.new }
{
    let minima = dataset.minima;
    put_field(file, 0, 8, 0x55);
    put_field(file, 8, 7, dataset.n as u32);
    put_field(file, 15, 4, u32::from(dataset.k));
    put_field(file, 19, 7, u32::from(minima.b0));
}

// Numbers in fields of one width, one after the other.
fn put_run(file: &mut [u8], start: usize, width: usize, numbers: &[u32])
    requires { RunInside file.old start width (length numbers.now) }
    ensures { PutFields file.old start (map (field width) numbers.now) file.new }
{
    for (i, number) in numbers.iter().enumerate() {
        put_field(file, start + width * i, width, *number);
    }
}

// Tide t: its setting less one, and its row.
fn put_tide(file: &mut [u8], start: usize, view: View, t: usize)
    requires { TideInside file.old view.distances.now view.settings.now start t }
    ensures { PutFields file.old start (tide_fields (tide_of (seen view.entry) t)) file.new }
{
    put_field(file, start, 3, u32::from(view.settings[t]) - 1);
    let line = t * MAX_TIDES;
    put_run(file, start + 3, 20, &view.distances[line..line + t]);
}

// All tides.
fn put_tides(file: &mut [u8], view: View)
    requires { Writable (seen view) file.old }
    ensures { PutFields file.old (bit_length max_users view.entry.dataset.k 0)
        (flat_map tide_fields (tabulate view.entry.dataset.n (tide_of (seen view.entry)))) file.new }
{
    let k = usize::from(view.dataset.k);
    for t in 0..view.dataset.n {
        let start = bit_length(MAX_USERS, k, t);
        put_tide(file, start, view, t);
    }
}

// All fields of the file.
pub fn put_fields(file: &mut [u8], view: View)
    requires { Writable (seen view) file.old }
    ensures { PutFields file.old 0 (file_fields (contents_of (seen view.entry))) file.new }
{
    let dataset = view.dataset;
    let k = usize::from(dataset.k);
    let minima = dataset.minima;
    let counts = dataset.withdrawn.map(u32::from);
    let numbers = minima.b.map(u32::from);
    put_head(file, dataset);
    put_run(file, COUNTS_AT, 16, &counts);
    put_run(file, MINIMA_AT, 7, &numbers[..k]);
    put_tides(file, view);
}
