// Integers and sums that the other crates' definitions and proofs share. There is no code here.
#![tactic(auto)]
