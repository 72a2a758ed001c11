// Studies that hold a duplicate (document 02, 2.8: a twin) come in by file: laid out in memory as they stand, written, and read.
use crate::small::{Small, at};
use study::{MAX_TIDES, Refusal};
use test_tools::book::Book;

// Whether tides i and j have one setting and lie at distance 0.
fn is_pair(small: Small, i: usize, j: usize) -> bool {
    at(small.settings, i) == at(small.settings, j) && small.distance(i, j) == 0
}

pub fn has_duplicate(small: Small) -> bool {
    for j in 0..small.n {
        for i in 0..j {
            if is_pair(small, i, j) {
                return true;
            }
        }
    }
    false
}

// The study in the book's memory, tide after tide.
fn put_tides(small: Small, book: &mut Book) {
    book.dataset.n = small.n;
    for i in 0..small.n.min(7) {
        book.settings[i] = at(small.settings, i);
        for j in 0..small.n.min(7) {
            book.distances[i * MAX_TIDES + j] = small.distance(i, j);
        }
    }
}

// The study's file in the front of the bytes, and its length.
fn write_study(small: Small, file: &mut [u8]) -> Result<usize, Refusal> {
    let mut book = Book::opened(small.k)?;
    book.set_minima(small.minima)?;
    put_tides(small, &mut book);
    study_file::write(book.view(), file)
}

// What Read leaves of the study's file, over cleared memory.
pub fn read_study(small: Small) -> Result<Book, Refusal> {
    let mut file = [0; 99];
    let length = write_study(small, &mut file)?;
    let mut book = Book::opened(1)?;
    book.read(&file[..length.min(99)])?;
    Ok(book)
}
