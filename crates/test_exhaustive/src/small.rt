// Studies of up to seven tides, counted from 0, and the datasets that the calls make of them.
use crate::stored::{has_duplicate, read_study};
use study::{Minima, Refusal};
use test_tools::book::Book;

#[derive(Clone, Copy)]
pub struct Small {
    pub n: usize,
    pub k: u8,
    pub minima: Minima,
    pub settings: [u8; 7],
    pub distances: [u32; 49],
}

// A tide's setting, position or block number; 0 past the seventh.
pub fn at(numbers: [u8; 7], t: usize) -> u8 {
    numbers.get(t).copied().unwrap_or(0)
}

// The distances of tides at points of a plane, along the axes; with every y the same, of tides on a line.
pub fn table(x: [u8; 7], y: [u8; 7]) -> [u32; 49] {
    let mut distances = [0; 49];
    for i in 0..7 {
        for j in 0..7 {
            distances[i * 7 + j] = u32::from(x[i].abs_diff(x[j])) + u32::from(y[i].abs_diff(y[j]));
        }
    }
    distances
}

impl Small {
    // 0 where a tide is past the seventh.
    pub fn distance(self, i: usize, j: usize) -> u32 {
        if 7 <= i || 7 <= j {
            return 0;
        }
        self.distances[i * 7 + j]
    }

    // A tide's distances to all seven.
    fn row(self, t: usize) -> [u32; 7] {
        let mut row = [0; 7];
        for i in 0..7 {
            row[i] = self.distance(t, i);
        }
        row
    }

    // Read of its file, where it holds a duplicate; otherwise Open, Minima, and Enter for each tide.
    pub fn book(self) -> Result<Book, Refusal> {
        if has_duplicate(self) {
            return read_study(self);
        }
        let mut book = Book::opened(self.k)?;
        book.set_minima(self.minima)?;
        for t in 0..self.n.min(7) {
            let row = self.row(t);
            book.enter(at(self.settings, t), &row[..t])?;
        }
        Ok(book)
    }
}
