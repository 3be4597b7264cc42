// A number in base ten, written into a lent buffer at a position. The function returns the position after it, and all other bytes keep
// their values.
ghost use Rattle.std.specs.Prelude.{◌≡◌, ◌+◌, length};
ghost use Rattle.codec.specs.Written.{Room, Put};
ghost use Rattle.text.specs.Text.{decimal};

// Returns how many digits a number has.
fn digit_count(x: u64) -> usize
    ensures { result ≡ length (decimal x) }
{
    let mut count: usize = 1;
    let mut rest = x;
    // kept: no index is counted, the number is divided until one digit is left
    while 10 <= rest {
        rest /= 10;
        count += 1;
    }
    count
}

// Writes a number in base ten, its last digit first.
pub fn put_decimal(out: &mut [u8], at: usize, x: u64) -> usize
    requires { Room out.old at (decimal x) }
    ensures { Put out.old at (decimal x) out.new result }
{
    let end = at + digit_count(x);
    let mut here = end;
    let mut rest = x;
    // kept: no index is counted, the number is divided until one digit is left
    while 10 <= rest {
        here -= 1;
        out[here] = (48 + rest % 10) as u8;
        rest /= 10;
    }
    out[at] = (48 + rest) as u8;
    end
}
