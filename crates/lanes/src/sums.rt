// A vector as 40 sums.
ghost use Rattle.std.specs.Prelude.{◌≡◌, true, ℕ, ◌+◌, ◌^◌, ◌≤◌, ◌<◌, length, get_or, pos, nat_abs, ◌+ℤ◌};
ghost use Rattle.table.specs.Gate.{in_range};
ghost use Rattle.function.specs.Vector.{same_vector};
ghost use Rattle.lanes.specs.Sums.{magnitude, vector_sums, Doubled};

use crate::block::block_count;
use types::vector::Vector;

// Stores, for each of the `half` sums from a place on, that sum with one weight more, `half` places further.
fn double(sums: &mut [i16; 40], from: usize, half: usize, weight: i16)
    requires sums_len { (length sums.old ≡ 40) × (from + (half + half) ≤ 40) }
    requires sums_fit { (at : ℕ) → at < half → nat_abs (get_or sums.old (from + at) (pos 0) +ℤ weight) < 2 ^ 15 }
    ensures { Doubled from half half weight sums.old sums.new }
{
    for at in 0..half {
        sums[from + half + at] = sums[from + at] + weight;
    }
}

// Returns the sums of a vector.
pub fn sums_of(v: Vector) -> [i16; 40]
    requires { (length v.a ≡ 8) × (magnitude v ≤ 16000) }
    ensures { result ≡ vector_sums v }
{
    let mut sums = [0i16; 40];
    sums[0] = -v.b as i16;
    for (place, weight) in v.a.iter().enumerate() {
        if place < 5 {
            double(&mut sums, 0, 1 << place, *weight as i16);
        } else {
            double(&mut sums, 32, 1 << (place - 5), *weight as i16);
        }
    }
    sums
}

// Returns the weight of a place, by the sums.
fn weight_at(sums: &[i16; 40], place: usize) -> i32
    requires { place < 8 }
    ensures { (v : Vector) → sums.now ≡ vector_sums v → result ≡ get_or v.a place (pos 0) }
{
    if place < 5 {
        sums[1 << place] as i32 - sums[0] as i32
    } else {
        sums[32 + (1 << (place - 5))] as i32
    }
}

// Returns the vector that has these sums.
pub fn vector_of(sums: &[i16; 40]) -> Vector
    ensures { (v : Vector) → length v.a ≡ 8 → sums.now ≡ vector_sums v → result ≡ v }
{
    let mut a = [0i32; 8];
    for (place, weight) in a.iter_mut().enumerate() {
        *weight = weight_at(sums, place);
    }
    Vector {
        a,
        b: -(sums[0] as i32),
    }
}

// Whether two vectors of n inputs are equal, by their sums. The distance of row 31 has b and the weights of all five low inputs in it, so
// most vectors that differ differ there: it is compared first, and the rest is seldom looked at. The first of the rest compares their b.
#[tactic(auto, using(crate::proofs::WeightLaws::blocks_le))]
pub fn same_sums(x: &[i16; 40], y: &[i16; 40], n: u8) -> bool
    requires { n ≤ 8 }
    ensures { (k : ℕ) (v s : Vector) → length v.a ≡ 8 → length s.a ≡ 8 → in_range k n v.a v.b ≡ true → in_range k n s.a s.b ≡ true → x.now ≡ vector_sums v → y.now ≡ vector_sums s → result ≡ same_vector v s }
{
    if x[31] != y[31] {
        return false;
    }
    let count = 32 + block_count(n);
    x[..count] == y[..count]
}
