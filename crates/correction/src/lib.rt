// The correction of a vector by its sums: the table of steps, and what a row's code adds. The functions ask for narrow sums.
#![tactic(auto)]

pub mod correction;
pub mod steps;
