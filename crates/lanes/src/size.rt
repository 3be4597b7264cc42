// The size of a vector.
ghost use Rattle.std.specs.Prelude.{◌≡◌, true, ◌≤◌, leb, nat_abs};
ghost use Rattle.table.specs.Gate.{weight_limit, in_range};
ghost use Rattle.lanes.specs.Sums.{magnitude};

use types::vector::Vector;

// Returns the absolute value.
fn absolute(x: i32) -> u32
    requires { nat_abs x ≤ weight_limit }
    ensures { result ≡ nat_abs x }
{
    if x < 0 { (0 - x) as u32 } else { x as u32 }
}

// Whether the sizes of b and of the weights add up to at most 9,000, as they do in every job from a fresh one: 750 corrections then keep every
// distance within 16,000.
pub fn is_small(v: Vector) -> bool
    requires { in_range weight_limit 8 v.a v.b ≡ true }
    ensures { result ≡ leb (magnitude v) 9000 }
{
    let mut sum = absolute(v.b);
    for weight in &v.a {
        sum += absolute(*weight);
    }
    sum <= 9000
}
