// Numbers and vectors of records, read from a slice at a position. Each function gives its field and the position after it, or a refusal.
#![tactic(auto)]

pub mod number;
pub mod vector;
