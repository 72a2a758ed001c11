// The blocking of a valid study that has enough tides: the first assignment at the least radius, and the blocks' measures.
#![tactic(auto)]

pub mod kernel;
pub mod measure;
