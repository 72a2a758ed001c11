// Block and the tariff (document 02, 2.3) with six lent records of known contents, and a list of nine places that hold 170.
use blocking::records::block;
use priced_blocks::kernel::Priced;
use priced_blocks::records::price_blocks;
use study::{BlockRecord, Figures, Minima, Refusal};
use test_exhaustive::small::{Small, table};
use test_tools::tally::Tally;

// As each record is before.
const KNOWN: BlockRecord = BlockRecord {
    centre: 91,
    tides: 92,
    diameter: 93,
};

// What the tariff is to answer and leave; Block answers the figures alone.
#[derive(Clone, Copy)]
struct Expected {
    answer: Result<Priced, Refusal>,
    list: [u8; 9],
    records: [BlockRecord; 6],
}

fn blocks(so_far: Tally, small: Small, expected: Expected) -> Tally {
    let Ok(book) = small.book() else {
        return so_far.see(false);
    };
    let mut list = [170; 9];
    let mut records = [KNOWN; 6];
    let answer = block(book.view(), &mut list, &mut records);
    so_far
        .see(answer == expected.answer.map(|priced| priced.figures))
        .see(list == expected.list)
        .see(records == expected.records)
}

fn prices(so_far: Tally, small: Small, expected: Expected) -> Tally {
    let Ok(book) = small.book() else {
        return so_far.see(false);
    };
    let mut list = [170; 9];
    let mut records = [KNOWN; 6];
    let answer = price_blocks(book.view(), &mut list, &mut records);
    let right = expected.answer;
    so_far
        .see(answer.map(|priced| priced.figures) == right.map(|priced| priced.figures))
        .see(list == expected.list)
        .see(records == expected.records)
        .see(answer.map(|priced| priced.total) == right.map(|priced| priced.total))
        .see(answer.map(|priced| priced.shares) == right.map(|priced| priced.shares))
}

// The first n of seven tides on a line, of settings 1 to 3.
fn study(n: usize, b0: u8) -> Small {
    Small {
        n,
        k: 3,
        minima: Minima { b0, b: [0; 8] },
        settings: [2, 1, 1, 3, 1, 1, 1],
        distances: table([0, 100, 140, 20, 50, 60, 70], [0; 7]),
    }
}

// Blocks of diameters 20 and 40: twice 905 and twice 870 pence. Of 3550, two tides of four have 1775; the others have 887 and a half each, and
// the penny goes to setting 2.
fn done() -> Expected {
    let first = BlockRecord {
        centre: 1,
        tides: 2,
        diameter: 20,
    };
    let second = BlockRecord {
        centre: 2,
        tides: 2,
        diameter: 40,
    };
    Expected {
        answer: Ok(Priced {
            figures: Figures {
                blocks: 2,
                radius: 40,
                widest: 40,
            },
            total: 3550,
            shares: [1775, 888, 887, 0, 0, 0, 0, 0],
        }),
        list: [1, 2, 2, 1, 170, 170, 170, 170, 170],
        records: [first, second, KNOWN, KNOWN, KNOWN, KNOWN],
    }
}

// Nothing is written.
fn refused(why: Refusal) -> Expected {
    Expected {
        answer: Err(why),
        list: [170; 9],
        records: [KNOWN; 6],
    }
}

// Four tides; seven with b0 = 8, and with a record too few.
pub fn block_trials() -> Tally {
    let t = blocks(Tally::default(), study(4, 2), done());
    let t = blocks(t, study(7, 8), refused(Refusal::TooFewTides));
    blocks(t, study(7, 2), refused(Refusal::ShortMemory))
}

pub fn tariff_trials() -> Tally {
    let t = prices(Tally::default(), study(4, 2), done());
    let t = prices(t, study(7, 8), refused(Refusal::TooFewTides));
    prices(t, study(7, 2), refused(Refusal::ShortMemory))
}
