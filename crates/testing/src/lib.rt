// What the test programs on jobs and records share: jobs from lines of text, whether two are the same, stages by their letters, the numbers
// that calls give, and parts of slices.
#![tactic(auto)]

pub mod compare;
pub mod make;
pub mod parts;
pub mod stage;
pub mod tally;
