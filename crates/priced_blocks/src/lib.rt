// Block with what its blocks cost (document 02, 2.3: tariff for a trial): for any record and memory of any length, the answer and what
// stands afterwards. No function of a public module has a `requires`.
#![tactic(auto)]

mod cost;
pub mod kernel;
pub mod records;
