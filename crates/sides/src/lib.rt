// Sums over the rows of one side of a table, and what is decided by them: whether a witness balances, and Chow's parameters. The functions
// ask for at most eight inputs and for counts as their type has them.
#![tactic(auto)]

pub mod balance;
pub mod chow;
pub mod sums;
