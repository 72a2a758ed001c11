// Two study files and the text of their pairs into the file of the merged study (document 02, 2.9: two books joined): through Read of both,
// the merge and Write.
#![tactic(auto)]

use crate::pairs::list_pairs;
use merge::merge;
use merge::source::Sources;
use sheet_of_file::blank;
use study::{Dataset, MAX_TIDES, Refusal, TABLE_SIZE};
use study_file::{read, write};
use validity::view::View;

mod pairs;

ghost use Rattle.std.specs.Prelude.{◌≡◌, ◌≤◌, length};
ghost use Rattle.study.specs.Limits.{max_tides, table_size};
ghost use Rattle.validity.specs.Memory.{state_of, contents_of};
ghost use Rattle.validity.specs.View.{seen};
ghost use Rattle.access.specs.Passed.{Passed};
ghost use Rattle.merge_text.specs.Pairs.{ended, pairs_of};
ghost use Rattle.merge_text.specs.Joining.{report_of, made, merged_by, join_answer, join_leaves};
ghost use Rattle.merge_text.specs.Steps.{FileRead, Merged, Tells};

// What is wrong with a line of the pairs' text.
#[derive(Clone, Copy)]
pub enum Fault {
    NotANumber,
    // Above 4,294,967,295.
    TooLarge,
    // One number alone on its line.
    Missing,
    // More than two numbers on a line.
    TooMany,
    // The whole text; its last whole line is named.
    TooLong,
}

// Why there is no merged file.
#[derive(Clone, Copy)]
pub enum JoinError {
    // Read's refusal of the first file.
    FirstRefused(Refusal),
    // Read's refusal of the second file.
    SecondRefused(Refusal),
    // A line of the pairs' text, from 1.
    WrongLine(usize, Fault),
    // The merge's refusal, or Write's.
    Refused(Refusal),
}

// The dataset's file, and its byte length.
fn write_dataset(view: View, file: &mut [u8]) -> Result<usize, JoinError>
    requires { Passed (seen view) }
    ensures { Tells (made (contents_of (seen view.entry))) result file.old file.new }
{
    match write(view, file) {
        Ok(n) => Ok(n),
        Err(why) => Err(JoinError::Refused(why)),
    }
}

// Two datasets' merge, over memory that is long enough.
fn merge_datasets(
    sources: &Sources,
    dataset: &mut Dataset,
    d3: &mut [u32],
    s3: &mut [u8],
) -> Result<(), Refusal>
    requires passed { Passed (seen sources.now.first) × Passed (seen sources.now.second) }
    requires table_size_in_bounds { (table_size ≤ length d3.old) × (max_tides ≤ length s3.old) }
    ensures { Merged (contents_of (seen sources.now.first)) (contents_of (seen sources.now.second)) sources.now.firsts.now sources.now.seconds.now
        result (state_of dataset.new d3.new s3.new) }
{
    merge(sources, dataset, d3, s3)
}

// The file of two datasets' merge.
fn write_merged(sources: &Sources, file: &mut [u8]) -> Result<usize, JoinError>
    requires { Passed (seen sources.now.first) × Passed (seen sources.now.second) }
    ensures { Tells (merged_by (contents_of (seen sources.now.first)) (contents_of (seen sources.now.second))
        (ended (record { firsts = sources.now.firsts.now; seconds = sources.now.seconds.now }))) result file.old file.new }
{
    let mut dataset = blank();
    let mut d3 = [0u32; TABLE_SIZE];
    let mut s3 = [0u8; MAX_TIDES];
    if let Err(why) = merge_datasets(sources, &mut dataset, &mut d3, &mut s3) {
        return Err(JoinError::Refused(why));
    }
    let merged = View {
        dataset,
        distances: &d3,
        settings: &s3,
    };
    write_dataset(merged, file)
}

// The file of two datasets' merge by the pairs of a text.
fn join_datasets(
    first: View,
    second: View,
    pairs: &[u8],
    file: &mut [u8],
) -> Result<usize, JoinError>
    requires { Passed (seen first) × Passed (seen second) }
    ensures { Tells (merged_by (contents_of (seen first.entry)) (contents_of (seen second.entry)) (pairs_of pairs.now))
        result file.old file.new }
{
    let mut firsts = [0u8; 65536];
    let mut seconds = [0u8; 65536];
    match list_pairs(pairs, &mut firsts, &mut seconds) {
        Err(wrong) => Err(JoinError::WrongLine(wrong.line, wrong.fault)),
        Ok(n) => {
            let sources = Sources {
                first,
                second,
                firsts: &firsts[..n],
                seconds: &seconds[..n],
            };
            write_merged(&sources, file)
        }
    }
}

// The dataset of a file, read over memory that is long enough.
fn read_dataset(
    file: &[u8],
    dataset: &mut Dataset,
    distances: &mut [u32],
    settings: &mut [u8],
) -> Result<(), Refusal>
    requires { (table_size ≤ length distances.old) × (max_tides ≤ length settings.old) }
    ensures { FileRead file.now result (state_of dataset.new distances.new settings.new) }
{
    read(dataset, distances, settings, file)
}

// The merged file of any bytes over the front of the lent ones, and its byte length; those past it stay, and all of them where something is
// wrong.
pub fn join(first: &[u8], second: &[u8], pairs: &[u8], file: &mut [u8]) -> Result<usize, JoinError>
    ensures told { report_of result
        ≡ join_answer first.now second.now pairs.now (length file.old) }
    ensures leaves { file.new
        ≡ join_leaves first.now second.now pairs.now file.old }
{
    let mut one = blank();
    let mut d1 = [0u32; TABLE_SIZE];
    let mut s1 = [0u8; MAX_TIDES];
    if let Err(why) = read_dataset(first, &mut one, &mut d1, &mut s1) {
        return Err(JoinError::FirstRefused(why));
    }
    let mut other = blank();
    let mut d2 = [0u32; TABLE_SIZE];
    let mut s2 = [0u8; MAX_TIDES];
    if let Err(why) = read_dataset(second, &mut other, &mut d2, &mut s2) {
        return Err(JoinError::SecondRefused(why));
    }
    let held = View {
        dataset: one,
        distances: &d1,
        settings: &s1,
    };
    let added = View {
        dataset: other,
        distances: &d2,
        settings: &s2,
    };
    join_datasets(held, added, pairs, file)
}
