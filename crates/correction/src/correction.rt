// The correction of a vector, by its sums.
ghost use Rattle.std.specs.Prelude.{◌≡◌, Bool, ◌++◌, ℕ, ◌+◌, ◌^◌, ◌<◌, length, get_or, take, drop, pos, nat_abs, ◌+ℤ◌, ◌-ℤ◌};
ghost use Rattle.numbers.specs.Tabulate.{tabulate, Holds};
ghost use Rattle.types.specs.declared.vector.Vector.{Vector};
ghost use Rattle.function.specs.Vector.{corrected_by, sign};
ghost use Rattle.lanes.specs.Sums.{vector_sums, Narrow};
ghost use Rattle.lanes.specs.Codes.{row_code};
ghost use Rattle.correction.specs.Steps.{step_at};
ghost use Rattle.function.specs.Function.{level};

// Adds a step to the distance of each row of five inputs.
fn add_low(sums: &mut [i16], steps: &[i16])
    requires sums_len { (length sums.old ≡ 40) × (length steps.now ≡ 32) }
    requires sizes { (q : ℕ) → q < 32 → nat_abs (get_or sums.old q (pos 0)) + nat_abs (get_or steps.now q (pos 0)) < 2 ^ 15 }
    ensures { sums.new ≡ tabulate 32 (λ q. get_or sums.old q (pos 0) +ℤ get_or steps.now q (pos 0)) ++ drop 32 sums.old }
{
    for row in 0..32 {
        sums[row] += steps[row];
    }
}

// Adds a step to the sum of each row of the higher three inputs. The step of a distance has the sign of b's change besides.
fn add_high(sums: &mut [i16], steps: &[i16], sign: i16)
    requires sums_len { (length sums.old ≡ 40) × (length steps.now ≡ 8) }
    requires sizes { (q : ℕ) → q < 8 → nat_abs (get_or sums.old (32 + q) (pos 0)) + nat_abs (get_or steps.now q (pos 0)) + nat_abs sign < 2 ^ 15 }
    ensures { sums.new ≡ take 32 sums.old ++ tabulate 8 (λ q. get_or sums.old (32 + q) (pos 0) +ℤ get_or steps.now q (pos 0) -ℤ sign) }
{
    for row in 0..8 {
        sums[32 + row] += steps[row] - sign;
    }
}

// Corrects the vector of the sums by the row of a code.
pub fn correct(sums: &mut [i16; 40], steps: &[i16; 2048], code: usize)
    requires { (code < 512) × Holds step_at 2048 steps.now × Narrow 16000 sums.old }
    ensures { (v : Vector) (y : Bool) (row : ℕ) → length v.a ≡ 8 → row < 256 → code ≡ row_code y row → sums.old ≡ vector_sums v → sums.new ≡ vector_sums (corrected_by y (level 2 row) v) }
{
    let low = code % 64 * 32;
    add_low(sums, &steps[low..low + 32]);
    let high = (code / 64 * 2 + code % 2) * 32;
    // kept: the sign is computed, since with a choice of two numbers a step of a chunk is slower by a tenth
    add_high(sums, &steps[high..high + 8], (code % 2) as i16 * 2 - 1);
}
