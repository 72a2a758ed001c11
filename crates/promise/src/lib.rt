// What a search for an assignment promises, for any test of which sets of tides are sufficient, in specs/; the tides that a search is
// of; and the table of allowed pairs that searches share.
#![tactic(auto)]

pub mod table;
pub mod tides;
