// A field of a record that was read (document 01, "Records").

// A value, and the position after its bytes.
#[derive(Clone, Copy, PartialEq, Eq)]
pub struct Field<T> {
    pub value: T,
    pub next: usize,
}
