// Block beside the plain blocker: answer, list, records, and the places past the last tide and block.
use blocking::records::{Blocking, block_by_value};
use std::io;
use std::io::Write;
use study::{BlockRecord, Figures, MAX_TIDES, Refusal};
use test_exhaustive::centres::Centres;
use test_exhaustive::exhaustive::{Order, Plain};
use test_exhaustive::partitions::{diameter, members, widest};
use test_exhaustive::small::Small;
use test_exhaustive::stored::has_duplicate;
use test_exhaustive::{exhaustive, studies};
use test_random::next;
use test_tools::tally::Tally;

// A record with no block in it.
const BLANK: BlockRecord = BlockRecord {
    centre: 0,
    tides: 0,
    diameter: 0,
};

// Block's answer, records, and a list of nine places that held 170.
#[derive(Clone, Copy)]
pub struct Given {
    pub answer: Result<Figures, Refusal>,
    pub records: [BlockRecord; MAX_TIDES],
    pub list: [u8; 9],
}

// What Block gives for a study that the other calls took.
pub fn blocked(small: Small) -> Result<Given, Refusal> {
    let book = small.book()?;
    let mut list = [170; 9];
    let Blocking { answer, records } = block_by_value(book.view(), &mut list);
    Ok(Given {
        answer,
        records,
        list,
    })
}

// Whether the first n places hold the block numbers, and the others still 170.
pub fn is_list(given: [u8; 9], n: usize, list: [u8; 7]) -> bool {
    let mut expected = [170; 9];
    let front = n.min(7);
    expected[..front].copy_from_slice(&list[..front]);
    n <= 7 && given == expected
}

// Whether this is the record of block m, counted from 0; past the last block nothing was written.
fn right_record(record: BlockRecord, small: Small, list: [u8; 7], centres: Centres, m: u8) -> bool {
    let Some(centre) = centres.tide(m) else {
        return record == BLANK;
    };
    let block = m.saturating_add(1);
    usize::from(record.centre).checked_sub(1) == Some(centre)
        && usize::from(record.tides) == members(small, list, block, None)
        && record.diameter == diameter(small, list, block)
}

fn right_records(
    records: [BlockRecord; MAX_TIDES],
    small: Small,
    list: [u8; 7],
    centres: Centres,
) -> bool {
    for m in 0..120u8 {
        if !right_record(records[usize::from(m)], small, list, centres, m) {
            return false;
        }
    }
    true
}

// Whether Block gave these blocks.
fn gave(given: Given, small: Small, plain: Plain) -> bool {
    let Plain { radius, list } = plain;
    let centres = Centres::at_radius(small, radius);
    let figures = Figures {
        blocks: usize::from(centres.count),
        radius,
        widest: widest(small, list),
    };
    given.answer == Ok(figures)
        && is_list(given.list, small.n, list)
        && right_records(given.records, small, list, centres)
}

// Whether Block gives what the plain blocker gives; a refusal leaves list and records as they were.
pub fn agrees(small: Small, plain: Result<Plain, Refusal>) -> bool {
    let Ok(given) = blocked(small) else {
        return false;
    };
    match plain {
        Ok(blocks) => gave(given, small, blocks),
        Err(why) => {
            given.answer == Err(why)
                && given.list == [170; 9]
                && given.records == [BLANK; MAX_TIDES]
        }
    }
}

// Whether another list would come first at the plain blocker's radius if each tide took the blocks by number.
fn other_by_number(small: Small, plain: Plain) -> bool {
    exhaustive::assignment(small, plain.radius, Order::Number) != Some(plain.list)
}

// Studies in which Block gives what the plain blocker gives, those of them that are refused 24 and 25, that have several blocks,
// in which a candidate above the radius has no assignment, in which Minima raises b0, in which the order by number would give another list,
// and which hold a duplicate, so that they come in by file.
#[derive(Clone, Copy, Default)]
pub struct Compared {
    agreed: Tally,
    no_tides: Tally,
    too_few: Tally,
    several: Tally,
    gaps: Tally,
    raised: Tally,
    by_number: Tally,
    by_file: Tally,
}

// The same of one study.
#[derive(Clone, Copy)]
struct Kinds {
    agreed: bool,
    no_tides: bool,
    too_few: bool,
    several: bool,
    gap: bool,
    raised: bool,
    by_number: bool,
    by_file: bool,
}

fn compare(small: Small) -> Kinds {
    let plain = exhaustive::block(small);
    let (several, gap, by_number) = match plain {
        Ok(blocks) => (
            1 < Centres::at_radius(small, blocks.radius).count,
            exhaustive::gap_above(small, blocks.radius),
            other_by_number(small, blocks),
        ),
        Err(_) => (false, false, false),
    };
    Kinds {
        agreed: agrees(small, plain),
        no_tides: matches!(plain, Err(Refusal::NoTides)),
        too_few: matches!(plain, Err(Refusal::TooFewTides)),
        several,
        gap,
        raised: studies::is_below(small.minima),
        by_number,
        by_file: has_duplicate(small),
    }
}

impl Compared {
    fn and(self, one: Kinds) -> Compared {
        Compared {
            agreed: self.agreed.see(one.agreed),
            no_tides: self.no_tides.see(one.no_tides),
            too_few: self.too_few.see(one.too_few),
            several: self.several.see(one.several),
            gaps: self.gaps.see(one.gap),
            raised: self.raised.see(one.raised),
            by_number: self.by_number.see(one.by_number),
            by_file: self.by_file.see(one.by_file),
        }
    }

    pub fn print<O: Write>(self, out: &mut O) -> io::Result<()> {
        self.agreed.print(out, "block as the plain blocker")?;
        self.no_tides.print(out, "with no tides")?;
        self.too_few.print(out, "with too few tides")?;
        self.several.print(out, "with several blocks")?;
        self.gaps
            .print(out, "with no assignment at a greater candidate")?;
        self.raised.print(out, "with b0 below the sum of the b's")?;
        self.by_number.print(out, "with another list by number")?;
        self.by_file.print(out, "with a duplicate, by file")
    }
}

pub fn trials(count: u32) -> Compared {
    let mut all = Compared::default();
    let mut seed = 20240229;
    for _ in 0..count {
        seed = next(seed);
        all = all.and(compare(studies::study(seed)));
    }
    all
}
