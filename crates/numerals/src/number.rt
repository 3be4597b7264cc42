// Numbers in groups of seven bits.
ghost use Rattle.std.specs.Prelude.{◌≡◌};
ghost use Rattle.codec.specs.Number.{number_at};

use types::field::Field;
use types::refusal::Refusal;

// Reads the number at a position. Refusals: 1, 4.
pub fn read_number(bytes: &[u8], at: usize) -> Result<Field<u32>, Refusal>
    ensures { result ≡ number_at bytes.now at }
{
    let mut next = at;
    let mut value: u32 = 0;
    for scale in [1u32, 128, 16_384] {
        let Some(&byte) = bytes.get(next) else {
            return Err(Refusal::EndsEarly);
        };
        next += 1;
        let byte = u32::from(byte);
        if byte < 128 {
            if byte == 0 && 1 < scale {
                return Err(Refusal::Number);
            }
            value += scale * byte;
            return Ok(Field { value, next });
        }
        value += scale * (byte - 128);
    }
    Err(Refusal::Number)
}
