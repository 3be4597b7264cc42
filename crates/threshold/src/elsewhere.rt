// Tables as they are written elsewhere, as hex digits and as words of 64 rows, with care words or without.
ghost use Rattle.std.specs.Prelude.{length};
ghost use Rattle.results.specs.Result.{Returned};
ghost use Rattle.words.specs.Words.{from_words, from_cares};
ghost use Rattle.digits.specs.Digits.{from_hex};

use digits::digits::from_hex;
use results::result::returned;
use words::words::{from_cares, from_words};

// Writes the table of so many inputs that hex digits stand for, the digit of the highest rows first, kind 1. Returns the length. Refusals: 2,
// 101, 102, 12.
pub fn threshold_from_hex(inputs: u32, digits: &[u8], out: &mut [u8]) -> i64
    ensures { Returned (from_hex inputs digits.now (length out.old)) out.old result out.new }
{
    returned(from_hex(inputs, digits, out))
}

// Writes the table of so many inputs that words of 64 rows stand for, the word of the lowest rows first, kind 1. Returns the length. Refusals:
// 2, 103, 12.
pub fn threshold_from_words(inputs: u32, words: &[u64], out: &mut [u8]) -> i64
    ensures { Returned (from_words inputs words.now (length out.old)) out.old result out.new }
{
    returned(from_words(inputs, words, out))
}

// Writes the table of so many inputs that words of 64 rows stand for, with the rows cared for that care words stand for: kind 1 if every row is,
// else kind 5. Returns the length. Refusals: 2, 103 of either, 16, 12.
pub fn threshold_from_cares(inputs: u32, words: &[u64], cares: &[u64], out: &mut [u8]) -> i64
    ensures { Returned (from_cares inputs words.now cares.now (length out.old)) out.old result out.new }
{
    returned(from_cares(inputs, words, cares, out))
}
