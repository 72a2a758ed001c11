// The fields of a study file: read one after the other, before the tides and tide by tide, and written. What Read and Write do once they are
// let through; the calls stand above.
#![tactic(auto)]

pub mod head;
mod length;
pub mod tides;
pub mod writing;
