// What the calls for C share: a dataset's record as numbers, the code of an answer, and numbers and columns written to the front of lists. For
// those calls alone: most functions have a `requires`.
#![tactic(auto)]

pub mod code;
pub mod numbers;
pub mod rows;
