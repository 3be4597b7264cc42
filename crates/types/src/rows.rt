// A row list that was read (document 01, "Records").

// Its counts, and whether it kept its ranges so far.
#[derive(Clone, Copy, PartialEq, Eq)]
pub struct RowList {
    pub counts: [u32; 256],
    pub kept: bool,
}

// A pair of a row list, and whether both of its numbers are in range.
#[derive(Clone, Copy, PartialEq, Eq)]
pub struct Pair {
    pub row: u32,
    pub count: u32,
    pub fits: bool,
}
