// The fields of records as bytes: definitions and their laws, no code.
#![tactic(auto)]
