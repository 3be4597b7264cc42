// The lines of a report, each made in a lent buffer. The functions ask for room.
#![tactic(auto)]

pub mod line;
pub mod tally;
