// A dataset's record as 15 numbers of 16 bits, read and written.
ghost use Rattle.std.specs.Prelude.{◌≡◌, ℕ, ◌+◌, ◌≤◌, ◌<◌, length, get_or};
ghost use Rattle.lists.specs.Lists.{tabulate, over};
ghost use Rattle.study.specs.Limits.{max_users};
ghost use Rattle.study.specs.Refusals.{verdict_of, settled};
ghost use Rattle.narrowing.specs.Narrowing.{narrowed, narrow_dataset};
ghost use Rattle.c_records.specs.Record.{record_size, minima_at, dataset_of, numbers_of, code};
ghost use Rattle.c_records.specs.Records.{Storable};

use crate::code::refusal_code;
use narrowing::narrow;
use study::{Dataset, MAX_USERS, Minima, Refusal};

// The numbers of a record: k, n, b0, b1 .. b8, and each user's withdrawals.
pub const RECORD_SIZE: usize = 15;

// b0, b1 .. b8 of a record, each as a byte.
fn minima_bytes(numbers: &[u16]) -> [u8; 9]
    requires { record_size ≤ length numbers.now }
    ensures { result ≡ tabulate 9 (λ (i : ℕ). narrowed (get_or numbers.now (2 + i) 0)) }
{
    let mut bytes = [0u8; 9];
    for i in 0..9 {
        bytes[i] = narrow(u32::from(numbers[2 + i]));
    }
    bytes
}

// The minima in 9 bytes: b0, b1 .. b8.
pub fn minima_of(bytes: &[u8]) -> Minima
    requires { 9 ≤ length bytes.now }
    ensures { result ≡ minima_at 0 bytes.now }
{
    let b = [
        bytes[1], bytes[2], bytes[3], bytes[4], bytes[5], bytes[6], bytes[7], bytes[8],
    ];
    Minima { b0: bytes[0], b }
}

// Each user's withdrawals.
fn counts_of(numbers: &[u16]) -> [u16; MAX_USERS]
    requires { record_size ≤ length numbers.now }
    ensures { result ≡ tabulate max_users (λ (i : ℕ). get_or numbers.now (11 + i) 0) }
{
    [numbers[11], numbers[12], numbers[13], numbers[14]]
}

// The record as the calls take it: k and the minima as bytes.
pub fn dataset_of(numbers: &[u16]) -> Dataset
    requires { record_size ≤ length numbers.now }
    ensures { result ≡ narrow_dataset (dataset_of numbers.now) }
{
    let bytes = minima_bytes(numbers);
    let minima = minima_of(&bytes);
    let withdrawn = counts_of(numbers);
    Dataset {
        k: narrow(u32::from(numbers[0])),
        n: usize::from(numbers[1]),
        minima,
        withdrawn,
    }
}

// The number at place i of a dataset's record.
fn number_at(dataset: Dataset, i: usize) -> u16
    requires { (i < record_size) × (dataset.n < 65536) }
    ensures { result ≡ get_or (numbers_of dataset) i 0 }
{
    if i == 0 {
        return u16::from(dataset.k);
    }
    if i == 1 {
        return dataset.n as u16;
    }
    let minima = dataset.minima;
    if i == 2 {
        return u16::from(minima.b0);
    }
    if 11 <= i {
        let counts = dataset.withdrawn;
        return counts[i - 11];
    }
    let b = minima.b;
    u16::from(b[i - 3])
}

// A record into the front of the numbers.
fn put_dataset(numbers: &mut [u16], dataset: Dataset)
    requires { (record_size ≤ length numbers.old) × (dataset.n < 65536) }
    ensures { numbers.new ≡ over (numbers_of dataset) numbers.old }
{
    for i in 0..RECORD_SIZE {
        numbers[i] = number_at(dataset, i);
    }
}

// The number that a call answers. An accepted call's record is written; a refused one writes nothing.
pub fn store_answer(numbers: &mut [u16], dataset: Dataset, answer: Result<(), Refusal>) -> u32
    requires { Storable numbers.old (verdict_of answer) dataset }
    ensures code { result ≡ code (verdict_of answer) }
    ensures numbers { numbers.new ≡ settled (verdict_of answer) (over (numbers_of dataset) numbers.old) numbers.old }
{
    if let Err(why) = answer {
        return refusal_code(why);
    }
    put_dataset(numbers, dataset);
    0
}
