// Text in a lent buffer: numbers in base ten, and the fields of a line. The functions ask for room.
#![tactic(auto)]

pub mod decimal;
pub mod field;
