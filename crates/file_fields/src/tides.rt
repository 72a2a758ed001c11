// The tides of a file, one by one, into memory of Read's own: for each its setting (5) and its row (7). A refusal met there ends the reading.
ghost use Rattle.std.specs.Prelude.{◌≡◌, ◌+◌, ◌*◌, ◌≤◌, ◌<◌, length};
ghost use Rattle.study.specs.Limits.{cell, max_tides, table_size};
ghost use Rattle.study.specs.Calls.{violations};
ghost use Rattle.file_format.specs.Bits.{bits_at};
ghost use Rattle.storage.specs.Places.{with_row};
ghost use Rattle.study.specs.Refusals.{verdict_of};
ghost use Rattle.file_fields.specs.Advance.{ReadTo};
ghost use Rattle.file_fields.specs.Loading.{TidesRead, TideRead, Reading, violation_verdict};
ghost use Rattle.file_fields.specs.Rows.{row_record, row_start, RowBegins};

use bit_reader::BitReader;
use study::{MAX_TIDES, Refusal};
use triangle::first_violation;

// The distances of tide t to the earlier tides: into its row and its column.
fn take_row(reader: &mut BitReader, matrix: &mut [u32], t: usize) -> Result<(), Refusal>
    requires { RowBegins reader.old.bytes.now matrix.old t reader.old.place }
    ensures same { reader.new.bytes ≡ reader.old.bytes }
    ensures reads { ReadTo (row_start reader.old.bytes.now t + 20 * t) result reader.new.place }
    ensures row { matrix.new ≡ with_row (row_record reader.old.bytes.now (row_start reader.old.bytes.now t) t) t matrix.old }
{
    for i in 0..t {
        let Some(distance) = reader.take(20) else {
            return Err(Refusal::FileLength);
        };
        matrix[t * MAX_TIDES + i] = distance;
        matrix[i * MAX_TIDES + t] = distance;
    }
    Ok(())
}

// Whether tide t's row, as memory holds it, obeys the triangle inequality with every pair of earlier tides; else the first pair with which it
// does not.
fn check_row(matrix: &[u32], t: usize) -> Result<(), Refusal>
    requires { (t < max_tides) × (table_size ≤ length matrix.now) }
    ensures { verdict_of result ≡ violation_verdict (violations (cell matrix.now) t (cell matrix.now t)) }
{
    let line = t * MAX_TIDES;
    match first_violation(matrix, &matrix[line..line + t]) {
        Some((i, j)) => Err(Refusal::TriangleInequality(i, j)),
        None => Ok(()),
    }
}

// Tide t: its setting (5) and its row (7) into memory.
fn read_tide(
    reader: &mut BitReader,
    k: usize,
    matrix: &mut [u32],
    vector: &mut [u8],
    t: usize,
) -> Result<(), Refusal>
    requires { (k ≡ bits_at reader.old.bytes.now 15 4) × (t < bits_at reader.old.bytes.now 8 7)
        × TidesRead reader.old.bytes.now t reader.old.place matrix.old vector.old }
    ensures same { reader.new.bytes ≡ reader.old.bytes }
    ensures read { TideRead reader.old.bytes.now (t + 1) result reader.new.place matrix.new vector.new }
{
    let Some(less) = reader.take(3) else {
        return Err(Refusal::FileLength);
    };
    if k <= less as usize {
        return Err(Refusal::Setting);
    }
    let taken = take_row(reader, matrix, t);
    let Ok(()) = taken else {
        return taken;
    };
    let checked = check_row(matrix, t);
    let Ok(()) = checked else {
        return checked;
    };
    vector[t] = (less + 1) as u8;
    Ok(())
}

// All n tides, into memory that is blank.
pub fn read_tides(
    reader: &mut BitReader,
    k: usize,
    n: usize,
    matrix: &mut [u32],
    vector: &mut [u8],
) -> Result<(), Refusal>
    requires { (k ≡ bits_at reader.old.bytes.now 15 4) × (n ≡ bits_at reader.old.bytes.now 8 7)
        × TidesRead reader.old.bytes.now 0 reader.old.place matrix.old vector.old }
    ensures { Reading reader.old.bytes.now n result matrix.new vector.new }
{
    for t in 0..n {
        let tide = read_tide(reader, k, matrix, vector, t);
        let Ok(()) = tide else {
            return tide;
        };
    }
    Ok(())
}
