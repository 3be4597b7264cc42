// Prints a report on standard output.
#![tactic(auto)]

pub mod report;
