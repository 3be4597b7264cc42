// The parts of a step of the stepping machine: the vector and its correction, powers of two, and the state taken apart. The functions ask for
// at most eight inputs and a vector in its range.
#![tactic(auto)]

pub mod core_state;
pub mod power;
pub mod vector;
