// The vector v = (a1..an, b) of a job, and its copy s (document 01, "The stepping machine").

// A weight for each of eight places, and the threshold. Places past n hold 0.
#[derive(Clone, Copy, PartialEq, Eq)]
pub struct Vector {
    pub a: [i32; 8],
    pub b: i32,
}
