// The heights of rows.
#![tactic(auto)]

pub mod page;
