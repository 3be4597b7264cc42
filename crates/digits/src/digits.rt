// A table from hex digits, the digit of the highest four rows first.
ghost use Rattle.std.specs.Prelude.{◌≡◌, true, ◌*◌, ◌≤◌, ◌<◌, length};
ghost use Rattle.numbers.specs.Tests.{all_below};
ghost use Rattle.table.specs.Table.{rows_of, row_byte, row_bytes};
ghost use Rattle.writers.specs.Calls.{WroteBytes};
ghost use Rattle.digits.specs.Digits.{digit_value, is_digit, digit_count, digit_row, from_hex};

use imports::made::{kept_bits, put_table_record};
use table::table::{byte_count, row_count, whole_table};
use types::refusal::Refusal;

// Returns the value of a hex digit, or 16 for any other character.
#[tactic(auto, using(std::proofs::lemmas::Bool::Decides::nat_tests), unfolding(crate::specs::Digits::digit_value))]
fn digit_value(character: u8) -> u8
    ensures { result ≡ digit_value character }
{
    match character {
        b'0'..=b'9' => character - b'0',
        b'A'..=b'F' => character - b'A' + 10,
        b'a'..=b'f' => character - b'a' + 10,
        _ => 16,
    }
}

// Whether all characters are digits.
fn all_digits(digits: &[u8]) -> bool
    ensures { result ≡ all_below (length digits.now) (is_digit digits.now) }
{
    for at in 0..digits.len() {
        if 16 <= digit_value(digits[at]) {
            return false;
        }
    }
    true
}

// Returns a byte of the table of n inputs that digits stand for: two digits, or one that is all of the table.
fn digit_byte(digits: &[u8], n: u8, at: usize) -> u8
    requires { (n ≤ 8) × (8 * at < rows_of n) × (length digits.now ≡ digit_count n) × (all_below (length digits.now) (is_digit digits.now) ≡ true) }
    ensures { result ≡ row_byte (rows_of n) (digit_row digits.now) at }
{
    let place = digits.len() - 1 - 2 * at;
    let low = digit_value(digits[place]);
    if n < 3 {
        return kept_bits(low, n);
    }
    let high = digit_value(digits[place - 1]);
    kept_bits(16 * high + low, n)
}

// Returns the values of the table of n inputs that digits stand for.
fn digit_bytes(digits: &[u8], n: u8) -> [u8; 32]
    requires { (n ≤ 8) × (length digits.now ≡ digit_count n) × (all_below (length digits.now) (is_digit digits.now) ≡ true) }
    ensures { result ≡ row_bytes n (digit_row digits.now) }
{
    let count = byte_count(n);
    let mut bytes = [0u8; 32];
    for at in 0..count {
        bytes[at] = digit_byte(digits, n, at);
    }
    bytes
}

// Writes the record of the table that digits stand for. Returns the length. Refusals: 2, 101, 102, 12.
pub fn from_hex(inputs: u32, digits: &[u8], out: &mut [u8]) -> Result<u32, Refusal>
    ensures { WroteBytes (from_hex inputs digits.now (length out.old)) out.old result out.new }
{
    if 8 < inputs {
        return Err(Refusal::Inputs);
    }
    let n = inputs as u8;
    if digits.len() != (row_count(n) + 3) / 4 {
        return Err(Refusal::Digits);
    }
    if !all_digits(digits) {
        return Err(Refusal::Digit);
    }
    put_table_record(whole_table(n, digit_bytes(digits, n)), out)
}
