// The search for the lowest failing row, all 32 rows of a block at once, and what it keeps of a table. The functions ask for narrow sums.
#![tactic(auto)]

pub mod keys;
pub mod search;
