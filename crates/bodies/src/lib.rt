// The bodies of records, what follows the kind byte, by the family: measured, and written into a lent buffer at a position. The functions ask
// for a record that keeps its rules, and for room.
#![tactic(auto)]

pub mod body;
