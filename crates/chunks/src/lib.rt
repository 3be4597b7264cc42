// Chunks of the machine's steps in the fast form, on a state whose counts are lent.
#![tactic(auto)]

pub mod chunk;
