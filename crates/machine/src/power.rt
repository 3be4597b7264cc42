// The highest power of two.
ghost use Rattle.std.specs.Prelude.{◌≡◌};
ghost use Rattle.numbers.specs.Power.{highest};

// Returns the highest power of two not above k, from the leading zeros of k; 0 for 0.
pub fn top_power(k: u32) -> u32
    ensures { result ≡ highest k }
{
    if k == 0 {
        return 0;
    }
    1u32 << (31 - u32::leading_zeros(k))
}
