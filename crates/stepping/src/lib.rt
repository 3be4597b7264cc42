// The steps of the machine on a table's state: from fresh, in chunks of the fast form, and plain where the numbers are large.
#![tactic(auto)]

pub mod decided;
pub mod start;
pub mod stepping;
