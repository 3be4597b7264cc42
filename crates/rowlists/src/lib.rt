// Row lists, read from a slice at a position and written into a lent buffer. The functions ask for room, for at most 256 rows and for counts in
// their range.
#![tactic(auto)]

pub mod read;
pub mod write;
