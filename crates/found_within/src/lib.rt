// What the job of a record has found within a budget, as numbers in lent arrays.
#![tactic(auto)]

pub mod found;
