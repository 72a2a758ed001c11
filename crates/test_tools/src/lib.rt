// What the trial programs share: datasets to try the calls on, and counts of what came out as expected.
#![tactic(auto)]

pub mod book;
pub mod tally;
