// The kinds of inputs (document 01, "Kinds, Chow, report").

// What making an input true does to the table: nothing, only false to true, only true to false, or both.
#[derive(Clone, Copy, PartialEq, Eq)]
pub enum InputKind {
    Idle,
    Rising,
    Falling,
    Binate,
}
