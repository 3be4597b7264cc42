// The table of a record, read from a slice at a position: the table and the position after it, or a refusal.
#![tactic(auto)]

pub mod tables;
