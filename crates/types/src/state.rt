// The state of the stepping machine on a table (document 01, "The stepping machine").
use crate::stage::Stage;
use crate::vector::Vector;

// K corrections made (k), the vector v, the mark M with the copy s of v taken there, and a count for each row since.
#[derive(Clone, Copy, PartialEq, Eq)]
pub struct State {
    pub k: u32,
    pub v: Vector,
    pub mark: u32,
    pub s: Vector,
    pub counts: [u32; 256],
    pub stage: Stage,
}
