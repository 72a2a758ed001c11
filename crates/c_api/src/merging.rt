// A merge for C. Two datasets are only read, and the third is written.
ghost use Rattle.std.specs.Prelude.{◌≡◌};
ghost use Rattle.c_records.specs.Record.{lent, code};
ghost use Rattle.c_api.specs.Api.{c_verdict, c_left, lacks_either, merge_of};

use c_records::numbers::{RECORD_SIZE, dataset_of, store_answer};
use merge::source::Sources;
use validity::view::View;

// A merge: the third dataset becomes the first and the second merged. Pair q is tide firsts[q] of the first and tide seconds[q] of the second.
pub fn tides_merge(
    n1: &[u16],
    d1: &[u32],
    s1: &[u8],
    n2: &[u16],
    d2: &[u32],
    s2: &[u8],
    numbers: &mut [u16],
    distances: &mut [u32],
    settings: &mut [u8],
    firsts: &[u8],
    seconds: &[u8],
) -> u32
    ensures code { result
        ≡ code (c_verdict (lent numbers.old distances.old settings.old) (lacks_either (lent n1.now d1.now s1.now) (lent n2.now d2.now s2.now))
        (merge_of (lent n1.now d1.now s1.now) (lent n2.now d2.now s2.now) firsts.now seconds.now)) }
    ensures leaves { lent numbers.new distances.new settings.new
        ≡ c_left (lent numbers.old distances.old settings.old) (lacks_either (lent n1.now d1.now s1.now) (lent n2.now d2.now s2.now))
        (merge_of (lent n1.now d1.now s1.now) (lent n2.now d2.now s2.now) firsts.now seconds.now) }
{
    if numbers.len() < RECORD_SIZE {
        return 1;
    }
    if n1.len() < RECORD_SIZE {
        return 1;
    }
    if n2.len() < RECORD_SIZE {
        return 1;
    }
    let sources = Sources {
        first: View {
            dataset: dataset_of(n1),
            distances: d1,
            settings: s1,
        },
        second: View {
            dataset: dataset_of(n2),
            distances: d2,
            settings: s2,
        },
        firsts,
        seconds,
    };
    let mut dataset = dataset_of(numbers);
    let answer = merge::merge(&sources, &mut dataset, distances, settings);
    store_answer(numbers, dataset, answer)
}
