// A job carried on by a budget, and what it has found, as numbers in lent arrays.
#![tactic(auto)]

pub mod carried;
