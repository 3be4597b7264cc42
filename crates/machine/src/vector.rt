// The vector v = (a1..an, b) of a job: a weight for each place, and the threshold.
ghost use Rattle.std.specs.Prelude.{◌≡◌, true, ◌<◌};
ghost use Rattle.table.specs.Gate.{weight_limit, in_range};
ghost use Rattle.function.specs.Vector.{corrected_by, same_vector};
ghost use Rattle.function.specs.Function.{level};

use gates::gate::in_range;
use types::gate::Gate;
use types::vector::Vector;

// Returns v after the correction by a row of this value: 1 is added to the weights of its true inputs and taken from b; on a false
// row the reverse.
pub fn corrected_by(v: Vector, value: bool, row: usize) -> Vector
    requires { (row < 256) × (in_range weight_limit 8 v.a v.b ≡ true) }
    ensures { result ≡ corrected_by value (level 2 row) v }
{
    let step: i32 = if value { 1 } else { -1 };
    let mut next = v;
    for (place, weight) in next.a.iter_mut().enumerate() {
        if (row >> place) % 2 == 1 {
            *weight += step;
        }
    }
    next.b -= step;
    next
}

// Whether two vectors are equal, b included. Kept beside `==`: theorems speak of its definition.
pub fn same_vector(v: Vector, s: Vector) -> bool
    ensures { result ≡ same_vector v s }
{
    v == s
}

// Whether the components of a vector are within ±k, and the places past n are 0.
pub fn vector_within(v: Vector, n: u8, k: u32) -> bool
    ensures { result ≡ in_range k n v.a v.b }
{
    in_range(v.a, v.b, n, k)
}

// Returns the gate of n inputs with the weights and T of a vector: weights ai, and T = b.
pub fn vector_gate(n: u8, v: Vector) -> Gate
    ensures { result ≡ record { n = n; weights = v.a; threshold = v.b } }
{
    let weights = v.a;
    Gate {
        n,
        weights,
        threshold: v.b,
    }
}
