// The kinds and Chow's parameters of a table's inputs, as bytes in a lent buffer.
#![tactic(auto)]

pub mod asked;
mod inputs;
