// Two datasets merged into one (document 02, 2.9: two books joined): for any records and memory of any length, the answer and what stands
// afterwards.
#![tactic(auto)]

use crate::counts::{added_counts, counts_fit};
use crate::pairs::{agree, names_none};
use crate::rest::find_rest;
use crate::source::Sources;
use crate::table::{in_range, put_distances, put_settings};
use study::{Dataset, MAX_TIDES, Refusal};
use validity::is_short;

mod counts;
mod pairs;
mod rest;
pub mod source;
mod table;

ghost use Rattle.std.specs.Prelude.{◌≡◌, [], ◌&&◌, ◌||◌};
ghost use Rattle.study.specs.Refusals.{verdict_of, first_of, held_reasons};
ghost use Rattle.validity.specs.Memory.{state_of, short, is_dataset};
ghost use Rattle.validity.specs.View.{seen};
ghost use Rattle.access.specs.Calls.{answer, after};
ghost use Rattle.merge.specs.Calls.{source_reasons, merges_datasets};
ghost use Rattle.merge.specs.Lent.{of_states};
ghost use Rattle.merge.specs.Sources.{Agreed, MergeAccepted};

// The memory of one of the two is short (1), or one of them is no dataset (21).
fn check_sources(sources: &Sources) -> Result<(), Refusal>
    ensures { verdict_of result ≡ first_of (held_reasons (short (seen sources.now.first) || short (seen sources.now.second)) []
        (is_dataset (seen sources.now.first) && is_dataset (seen sources.now.second)) []) }
{
    let Sources { first, second, .. } = *sources;
    if is_short(first.distances, first.settings) {
        return Err(Refusal::ShortMemory);
    }
    if is_short(second.distances, second.settings) {
        return Err(Refusal::ShortMemory);
    }
    if !first.is_dataset() {
        return Err(Refusal::NotDataset);
    }
    if !second.is_dataset() {
        return Err(Refusal::NotDataset);
    }
    Ok(())
}

// The last reasons, of what the merged dataset would hold: more than 120 tides (22), a distance (6), a count of withdrawals (26).
fn check_merged(sources: &Sources) -> Result<(), Refusal>
    requires { of_states Agreed sources.now }
    ensures { verdict_of result ≡ first_of (of_states source_reasons sources.now) }
{
    let first = sources.first.dataset;
    let second = sources.second.dataset;
    let rest = find_rest(sources.firsts, sources.seconds, second.n);
    if MAX_TIDES < first.n + rest.count {
        return Err(Refusal::Full);
    }
    if !in_range(sources, &rest) {
        return Err(Refusal::Distance);
    }
    if !counts_fit(first.withdrawn, second.withdrawn) {
        return Err(Refusal::WithdrawalLimit);
    }
    Ok(())
}

// All reasons but short memory of the third.
fn merge_answer(sources: &Sources) -> Result<(), Refusal>
    ensures { verdict_of result ≡ first_of (of_states source_reasons sources.now) }
{
    check_sources(sources)?;
    if names_none(sources.firsts, sources.seconds) {
        return Err(Refusal::NoSharedTide);
    }
    if !agree(sources) {
        return Err(Refusal::Mismatch);
    }
    check_merged(sources)
}

// What an accepted merge makes of the third record and its memory.
fn put_merged(sources: &Sources, into: &mut Dataset, d3: &mut [u32], s3: &mut [u8])
    requires { of_states MergeAccepted sources.now (state_of into.old d3.old s3.old) }
    ensures { state_of into.new d3.new s3.new
        ≡ after (state_of into.old d3.old s3.old) (of_states merges_datasets sources.now) }
{
    let first = sources.first.dataset;
    let second = sources.second.dataset;
    let rest = find_rest(sources.firsts, sources.seconds, second.n);
    put_distances(sources, &rest, d3);
    put_settings(sources, &rest, s3);
    into.k = first.k;
    into.n = first.n + rest.count;
    into.minima = first.minima;
    into.withdrawn = added_counts(first.withdrawn, second.withdrawn);
}

// The third dataset becomes the two merged, whatever it was: the first's tides, then those of the second that are in no pair.
pub fn merge(
    sources: &Sources,
    into: &mut Dataset,
    d3: &mut [u32],
    s3: &mut [u8],
) -> Result<(), Refusal>
    ensures answer { verdict_of result
        ≡ answer (state_of into.old d3.old s3.old) (of_states merges_datasets sources.now) }
    ensures leaves { state_of into.new d3.new s3.new
        ≡ after (state_of into.old d3.old s3.old) (of_states merges_datasets sources.now) }
{
    if is_short(d3, s3) {
        return Err(Refusal::ShortMemory);
    }
    merge_answer(sources)?;
    put_merged(sources, into, d3, s3);
    Ok(())
}
