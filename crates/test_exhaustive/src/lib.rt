// A plain blocker for up to seven tides, which tries every assignment; and small studies to try it on.
#![tactic(auto)]

pub mod centres;
pub mod exhaustive;
pub mod partitions;
pub mod small;
pub mod stored;
pub mod studies;
