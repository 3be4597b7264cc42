// The state of the stepping machine on a function: its steps, its start, and when it is sound. Definitions and their laws, no code.
#![tactic(auto)]
