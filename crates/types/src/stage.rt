// The stage of a job (document 01, "The stepping machine").

// Where the machine stands: still open, or ended with a gate, with a cycle that is a witness, or at once with a binate input.
#[derive(Clone, Copy, PartialEq, Eq)]
pub enum Stage {
    Open,
    Found,
    Looped,
    Binate,
}
