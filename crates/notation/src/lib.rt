// Gates and witnesses as the fields of a line, made in a lent buffer. The functions ask for room.
#![tactic(auto)]

pub mod gate;
pub mod witness;
