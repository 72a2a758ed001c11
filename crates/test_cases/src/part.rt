// Centres hands back the filled front of the caller's list: the part, and then the whole of the three lists, where it is accepted each with
// two places more than there are tides.
use blocking::centres::centres;
use study::Minima;
use test_exhaustive::small::{Small, table};
use test_tools::tally::Tally;

// Four tides on a line, at 0, 10, 5 and 10, the last of setting 2.
fn four_tides() -> Small {
    Small {
        n: 4,
        k: 2,
        minima: Minima { b0: 1, b: [0; 8] },
        settings: [1, 1, 1, 2, 0, 0, 0],
        distances: table([0, 10, 5, 10, 0, 0, 0], [0; 7]),
    }
}

// Writes 77 into the second place, where there is one.
fn mark(part: &mut [u8]) {
    if let Some(place) = part.get_mut(1) {
        *place = 77;
    }
}

// The part of the list that Centres hands back for the four tides at radius 5, and the number that it leaves. What is then written into the part
// stands in the caller's list.
fn handed_back(
    so_far: Tally,
    list: &mut [u8],
    nearest: &mut [u8],
    away: &mut [u32],
    part: &[u8],
    number: u8,
) -> Tally {
    let Ok(book) = four_tides().book() else {
        return so_far.see(false);
    };
    let mut refusal = 99;
    let front = centres(book.view(), 5, list, nearest, away, &mut refusal);
    let same = *front == *part;
    mark(front);
    so_far.see(same).see(refusal == number)
}

// Two centres, both equally near to the third tide.
fn accepted(so_far: Tally) -> Tally {
    let mut list = [170; 6];
    let mut nearest = [171; 6];
    let mut away = [172; 6];
    let t = handed_back(so_far, &mut list, &mut nearest, &mut away, &[1, 2], 0);
    t.see(list == [1, 77, 170, 170, 170, 170])
        .see(nearest == [1, 2, 1, 2, 171, 171])
        .see(away == [0, 0, 5, 0, 172, 172])
}

// The third list has a place less than there are tides: the part is empty, and nothing is written.
fn refused(so_far: Tally) -> Tally {
    let mut list = [170; 6];
    let mut nearest = [171; 6];
    let mut away = [172; 3];
    let t = handed_back(so_far, &mut list, &mut nearest, &mut away, &[], 1);
    t.see(list == [170; 6])
        .see(nearest == [171; 6])
        .see(away == [172; 3])
}

pub fn trials() -> Tally {
    refused(accepted(Tally::default()))
}
