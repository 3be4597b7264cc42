// Calls of the C interface that take a record apart, make one of numbers, or check numbers against one.
#![tactic(auto)]

pub mod checked;
pub mod given;
pub mod jobs;
pub mod taken;
