// A threshold gate (document 01, "Table, gate, witness").

// n inputs, a weight for each of eight places, and the threshold T. Places past n hold 0.
#[derive(Clone, Copy, PartialEq, Eq)]
pub struct Gate {
    pub n: u8,
    pub weights: [i32; 8],
    pub threshold: i32,
}
