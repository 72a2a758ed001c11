// What a search is given: a study, and centres among its tides. Which radii have no assignment, and where the next one to look at is, stands
// in specs/.
#![tactic(auto)]

pub mod centres;
pub mod input;
