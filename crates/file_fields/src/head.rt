// What stands in a file before its tides, field after field, and what Read tests before any tide.
ghost use Rattle.std.specs.Prelude.{◌≡◌, ℕ, ◌+◌, ◌-◌, ◌*◌, ◌≤◌, ◌<◌, eqb, length};
ghost use Rattle.file_format.specs.Bits.{bits_at};
ghost use Rattle.bit_reader.specs.Fields.{BitsRead};
ghost use Rattle.file_fields.specs.Heading.{Marked, Begun, StartGot, RunBegins, RunRead, RecordBegins, RecordRead, HeadGot, HeadRead};

use crate::length::{bit_length, has_length};
use bit_reader::{BitReader, Place, ends_in_zeros};
use std::array;
use study::{Dataset, MAX_SETTINGS, MAX_TIDES, MAX_USERS, Minima, Refusal};
use validity::valid_minima;

// How many counts of withdrawals the file carries, the number of its tides and k.
#[derive(Clone, Copy)]
pub struct Start {
    pub counts: usize,
    pub n: usize,
    pub k: usize,
}

// The number of tides and k: reasons 10, 2.
fn read_counts(reader: &mut BitReader, counts: usize) -> Result<Start, Refusal>
    requires { Marked reader.old.bytes.now counts reader.old.place }
    ensures same { reader.new.bytes ≡ reader.old.bytes }
    ensures got { StartGot reader.old.bytes.now result reader.new.place }
{
    let Some(tides) = reader.take(7) else {
        return Err(Refusal::FileLength);
    };
    let n = tides as usize;
    if MAX_TIDES < n {
        return Err(Refusal::TideCount);
    }
    let Some(settings) = reader.take(4) else {
        return Err(Refusal::FileLength);
    };
    let k = settings as usize;
    if k < 1 || MAX_SETTINGS < k {
        return Err(Refusal::SettingCount);
    }
    Ok(Start { counts, n, k })
}

// The mark, the number of tides and k: reasons 8, 9, 8 again of a file that carries a count for each user, 10, 2.
fn read_start(reader: &mut BitReader) -> Result<Start, Refusal>
    requires { BitsRead reader.old.place 0 }
    ensures same { reader.new.bytes ≡ reader.old.bytes }
    ensures got { StartGot reader.old.bytes.now result reader.new.place }
{
    if reader.bytes.len() < 6 {
        return Err(Refusal::FileLength);
    }
    let Some(mark) = reader.take(8) else {
        return Err(Refusal::FileLength);
    };
    if mark == 0x54 {
        return read_counts(reader, 1);
    }
    if mark != 0x55 {
        return Err(Refusal::Mark);
    }
    if reader.bytes.len() < 12 {
        return Err(Refusal::FileLength);
    }
    read_counts(reader, MAX_USERS)
}

// The numbers in `count` fields of `width` bits, one after the other; the other places are 0.
fn take_numbers<const N: usize>(
    reader: &mut BitReader,
    width: usize,
    count: usize,
) -> Result<[u32; N], Refusal>
    requires { RunBegins reader.old.bytes.now width count N reader.old.place }
    ensures same { reader.new.bytes ≡ reader.old.bytes }
    ensures run { (start : ℕ) → BitsRead reader.old.place start
        → RunRead reader.old.bytes.now start width count N result reader.new.place }
{
    let mut numbers = [0; N];
    for i in 0..count {
        let Some(number) = reader.take(width) else {
            return Err(Refusal::FileLength);
        };
        numbers[i] = number;
    }
    Ok(numbers)
}

// The record that the file gives: beside n and k, b0, the withdrawals, those of users that the file does not count being 0, and the minima, those
// above k being 0.
fn read_record(reader: &mut BitReader, start: Start) -> Result<Dataset, Refusal>
    requires { RecordBegins reader.old.bytes.now start.counts start.k start.n reader.old.place }
    ensures same { reader.new.bytes ≡ reader.old.bytes }
    ensures read { RecordRead reader.old.bytes.now result reader.new.place }
{
    let Some(b0) = reader.take(7) else {
        return Err(Refusal::FileLength);
    };
    let Ok(counts) = take_numbers::<MAX_USERS>(reader, 16, start.counts) else {
        return Err(Refusal::FileLength);
    };
    let Ok(minima) = take_numbers::<MAX_SETTINGS>(reader, 7, start.k) else {
        return Err(Refusal::FileLength);
    };
    Ok(Dataset {
        k: start.k as u8,
        n: start.n,
        minima: Minima {
            b0: b0 as u8,
            b: array::from_fn(|j| minima[j] as u8),
        },
        withdrawn: array::from_fn(|i| counts[i] as u16),
    })
}

// Whether the bits from `end` on, which fill the last byte, are zero.
fn filled(file: &[u8], end: usize) -> bool
    requires { (end ≤ 8 * length file.now) × (8 * length file.now < end + 8) × (end ≤ 143306) }
    ensures { result ≡ eqb (bits_at file.now end (8 * length file.now - end)) 0 }
{
    ends_in_zeros(file, 8 * file.len() - end)
}

// The length, the minima and the last byte: reasons 8, 3, 11.
fn read_rest(reader: &mut BitReader, start: Start) -> Result<Dataset, Refusal>
    requires { Begun reader.old.bytes.now start.counts start.k start.n × BitsRead reader.old.place 19 }
    ensures same { reader.new.bytes ≡ reader.old.bytes }
    ensures got { HeadGot reader.old.bytes.now result reader.new.place }
{
    let bits = bit_length(start.counts, start.k, start.n);
    if !has_length(reader.bytes.len(), bits) {
        return Err(Refusal::FileLength);
    }
    let dataset = read_record(reader, start)?;
    if !valid_minima(dataset.minima, dataset.k) {
        return Err(Refusal::Minima);
    }
    if !filled(reader.bytes, bits) {
        return Err(Refusal::FillBits);
    }
    Ok(dataset)
}

// What stands before the tides: the record that the file gives, and the place of its first tide.
pub fn read_head(file: &[u8]) -> Result<(Dataset, Place), Refusal>
    ensures { HeadRead file.now result }
{
    let mut reader = BitReader::new(file);
    let start = read_start(&mut reader)?;
    let dataset = read_rest(&mut reader, start)?;
    Ok((dataset, reader.place))
}
