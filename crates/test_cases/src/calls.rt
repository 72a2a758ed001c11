// Document 01's cases 7 to 9, case 8 also as document 02, 2.7 writes it: what Enter, Read, Write and Withdraw give.
use crate::cases::line;
use study::{Dataset, MAX_TIDES, MAX_USERS, Refusal, TABLE_SIZE};
use test_tools::book::Book;
use test_tools::tally::Tally;

// A third tide beside two at 3.
fn third(first: u32, second: u32) -> Result<(), Refusal> {
    let mut book = line(2, [0, 3, 0, 0, 0, 0, 0], 1).book()?;
    book.enter(1, &[first, second])
}

pub fn case_7() -> Tally {
    let broken = Err(Refusal::TriangleInequality(1, 2));
    Tally::default()
        .see(third(1, 2) == Ok(()))
        .see(third(1, 4) == Ok(()))
        .see(third(1, 1) == broken)
        .see(third(1, 5) == broken)
}

// Case 8's file, as it is written and as document 01 has it; then each with its last byte 1.
const NEW: [u8; 13] = [0x55, 0, 0x20, 0x40, 0, 0, 0, 0, 0, 0, 0, 0, 0];

const OLD: [u8; 7] = [0x54, 0, 0x20, 0x40, 0, 0, 0];

const NEW_FILL: [u8; 13] = [0x55, 0, 0x20, 0x40, 0, 0, 0, 0, 0, 0, 0, 0, 1];

const OLD_FILL: [u8; 7] = [0x54, 0, 0x20, 0x40, 0, 0, 1];

// Open and then Write; the bytes past the file stay.
fn written_empty(so_far: Tally) -> Tally {
    let Ok(book) = Book::opened(1) else {
        return so_far.see(false);
    };
    let mut file = [170; 15];
    let length = study_file::write(book.view(), &mut file);
    so_far
        .see(length == Ok(13))
        .see(file[..13] == NEW[..])
        .see(file[13] == 170 && file[14] == 170)
}

// Read's answer, and the record that it leaves.
fn read(file: &[u8]) -> (Result<(), Refusal>, Dataset) {
    let mut book = Book::nonsense();
    let answer = book.read(file);
    (answer, book.dataset)
}

fn is_empty(dataset: Dataset) -> bool {
    dataset.k == 1
        && dataset.n == 0
        && dataset.minima.b0 == 1
        && dataset.withdrawn == [0; MAX_USERS]
}

// The file comes in; with a fill bit set, and with six bytes, it is refused.
fn files(so_far: Tally, file: &[u8], filled: &[u8], short: &[u8]) -> Tally {
    let (answer, dataset) = read(file);
    let (with_fill, _) = read(filled);
    let (cut_off, _) = read(short);
    so_far
        .see(answer == Ok(()))
        .see(is_empty(dataset))
        .see(with_fill == Err(Refusal::FillBits))
        .see(cut_off == Err(Refusal::FileLength))
}

pub fn case_8() -> Tally {
    let t = files(written_empty(Tally::default()), &NEW, &NEW_FILL, &NEW[..6]);
    files(t, &OLD, &OLD_FILL, &OLD[..6])
}

// A dataset of as many tides as the row is long, each at the row's distances from those before it.
fn filled(row: &[u32]) -> Result<Book, Refusal> {
    let mut book = Book::opened(1)?;
    for n in 0..row.len() {
        book.enter(1, &row[..n])?;
    }
    Ok(book)
}

// The record's tides, and its count for user 4 alone; where the rows of tides 119 and 120 begin, and what stands past the memory.
fn left(so_far: Tally, book: &Book, n: usize, count: u16, last: u32) -> Tally {
    let Dataset {
        n: tides,
        withdrawn,
        ..
    } = book.dataset;
    so_far
        .see(tides == n && withdrawn == [0, 0, 0, count])
        .see(book.distances[14160] == 1)
        .see(book.distances[14280] == last)
        .see(book.distances[TABLE_SIZE] == 7)
}

// 120 tides, each at 1 from every other: tide 120 has entered. Another is refused, whatever its setting and row; after user 4 withdraws tide 5,
// one at 2 from all enters.
pub fn case_9() -> Tally {
    let Ok(mut book) = filled(&[1; MAX_TIDES]) else {
        return Tally::default().see(false);
    };
    let refused = book.enter(9, &[5]);
    let t = left(
        Tally::default().see(refused == Err(Refusal::Full)),
        &book,
        MAX_TIDES,
        0,
        1,
    );
    let gone = book.withdraw(4, 5);
    let t = left(t.see(gone == Ok(())), &book, 119, 1, 0);
    let again = book.enter(1, &[2; 119]);
    left(t.see(again == Ok(())), &book, MAX_TIDES, 1, 2)
}
