// The least radius with an assignment, through the promise of the matching search alone. The radii are taken upwards, as far at a time
// as the centres stay (stretch); problem puts the steps together.
#![tactic(auto)]

pub mod bound;
pub mod centres;
pub mod counts;
mod next;
pub mod problem;
mod stretch;
mod table;
