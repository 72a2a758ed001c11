// The first assignment by the order in which each tide ranks the blocks (document 02, 2.6), through the promise of the search alone.
#![tactic(auto)]

mod column;
pub mod first;
mod rank;
