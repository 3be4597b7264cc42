// Theorems on the stepping machine, over the definitions of the crates below. There is no code here.
#![tactic(auto)]
