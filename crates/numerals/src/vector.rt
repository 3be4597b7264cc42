// Weights and thresholds, and the vectors of a job.
ghost use Rattle.std.specs.Prelude.{◌≡◌, ◌≤◌, ◌<◌};
ghost use Rattle.codec.specs.Number.{signed_of};
ghost use Rattle.codec.specs.VectorField.{signed_at, vector_at};

use crate::number::read_number;
use gates::gate::{WEIGHT_LIMIT, is_within};
use types::field::Field;
use types::refusal::Refusal;
use types::vector::Vector;

// Returns the integer that a number stands for: half of an even one, the negation of half of an odd one rounded up.
fn signed_of(x: u32) -> i32
    requires { x < 2097152 }
    ensures { result ≡ signed_of x }
{
    let half = (x / 2) as i32;
    if x % 2 == 0 { half } else { -1 - half }
}

// Reads the signed number at a position. Refusals: 1, 4; 7 if ranges are refused at once.
pub fn read_signed(bytes: &[u8], at: usize, strict: bool) -> Result<Field<i32>, Refusal>
    ensures { result ≡ signed_at strict bytes.now at }
{
    let number = read_number(bytes, at)?;
    let value = signed_of(number.value);
    if strict && !is_within(value, WEIGHT_LIMIT) {
        return Err(Refusal::Gate);
    }
    Ok(Field {
        value,
        next: number.next,
    })
}

// Reads n weights and b at a position. Refusals: 1, 4; 7 if ranges are refused at once.
pub fn read_vector(bytes: &[u8], at: usize, n: u8, strict: bool) -> Result<Field<Vector>, Refusal>
    requires { n ≤ 8 }
    ensures { result ≡ vector_at strict n bytes.now at }
{
    let mut a = [0i32; 8];
    let mut here = at;
    for place in 0..n as usize {
        let weight = read_signed(bytes, here, strict)?;
        a[place] = weight.value;
        here = weight.next;
    }
    let last = read_signed(bytes, here, strict)?;
    Ok(Field {
        value: Vector { a, b: last.value },
        next: last.next,
    })
}
