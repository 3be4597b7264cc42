// The kind byte of a record, read from a slice at a position: what it says and the position after it, or a refusal.
#![tactic(auto)]

pub mod kind;
