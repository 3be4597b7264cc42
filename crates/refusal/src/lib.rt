// The test of a table that every call begins with. The order of refusals is a definition (specs/Refusal.antt).
#![tactic(auto)]

pub mod refusal;
