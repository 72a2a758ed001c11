// Centres, Block and Judge: for any record and memory of any length, the answer and what stands afterwards.
// No function of a public module has a `requires`, but for `storing`, by which other calls that block put their records; what else needs
// one stands in the modules that are private.
#![tactic(auto)]

pub mod block;
pub mod centres;
mod computing;
mod front;
mod input;
pub mod judge;
mod judging;
pub mod records;
pub mod storing;
mod tides;
