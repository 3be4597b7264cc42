// Many tables decided one after another: the records of an input, and the lines of their report in a lent buffer. The functions ask for an
// input of at most 65,536 bytes and for room.
#![tactic(auto)]

pub mod line;
pub mod lines;
pub mod progress;
