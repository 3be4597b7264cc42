// What a call of the C interface comes to: an answer as a number below 2^32 or a refusal, and the one number that C is returned.
#![tactic(auto)]

pub mod result;
