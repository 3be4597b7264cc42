// The fields of a line, written into a lent buffer at a position. Each function returns the position after its text, and all other bytes
// keep their values.
ghost use Rattle.std.specs.Prelude.{[], ◌∷◌};
ghost use Rattle.codec.specs.Written.{Room, Put};
ghost use Rattle.text.specs.Text.{decimal, signed_text, spaced};

use crate::decimal::put_decimal;

// Writes a byte.
pub fn put_byte(out: &mut [u8], at: usize, byte: u8) -> usize
    requires { Room out.old at (byte ∷ []) }
    ensures { Put out.old at (byte ∷ []) out.new result }
{
    out[at] = byte;
    at + 1
}

// Writes a space and a letter.
pub fn put_letter(out: &mut [u8], at: usize, letter: u8) -> usize
    requires { Room out.old at (spaced (letter ∷ [])) }
    ensures { Put out.old at (spaced (letter ∷ [])) out.new result }
{
    out[at] = b' ';
    out[at + 1] = letter;
    at + 2
}

// Writes a space and a number.
pub fn put_number(out: &mut [u8], at: usize, x: u64) -> usize
    requires { Room out.old at (spaced (decimal x)) }
    ensures { Put out.old at (spaced (decimal x)) out.new result }
{
    let here = put_byte(out, at, b' ');
    put_decimal(out, here, x)
}

// Writes a space and a signed number.
pub fn put_signed(out: &mut [u8], at: usize, z: i64) -> usize
    requires { Room out.old at (spaced (signed_text z)) }
    ensures { Put out.old at (spaced (signed_text z)) out.new result }
{
    if 0 <= z {
        return put_number(out, at, z as u64);
    }
    let below = (-1 - z) as u64;
    out[at] = b' ';
    out[at + 1] = b'-';
    put_decimal(out, at + 2, below + 1)
}
