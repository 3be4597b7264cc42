// The test that a state of the machine, taken apart, is sound on a table of at most eight inputs.
#![tactic(auto)]

pub mod sound;
