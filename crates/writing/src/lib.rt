// Fields of records: how many bytes they take, and written into a lent buffer. The functions ask for room and for numbers in their
// ranges.
#![tactic(auto)]

pub mod length;
pub mod put;
