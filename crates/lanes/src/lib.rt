// The fast form of a vector: sums in places of 16 bits, for rows in blocks of 32. The functions ask for vectors small enough for such
// places.
#![tactic(auto)]

pub mod block;
pub mod size;
pub mod sums;
