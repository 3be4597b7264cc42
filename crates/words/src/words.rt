// A table from words of 64 rows, those of the lowest rows first, with words of care bits or without.
ghost use Rattle.std.specs.Prelude.{◌≡◌, ◌*◌, ◌/◌, ◌%◌, ◌^◌, ◌≤◌, ◌<◌, ltb, length};
ghost use Rattle.table.specs.Table.{rows_of, row_byte, row_bytes};
ghost use Rattle.writers.specs.Calls.{WroteBytes};
ghost use Rattle.words.specs.Words.{word_count, word_row, from_words, from_cares};

use imports::made::{kept_bits, put_table_record};
use table::table::{byte_count, row_count, whole_table};
use types::refusal::Refusal;
use types::table::Table;

// Too few words, of values or of cares.
const FEW_WORDS: Refusal = Refusal::Words;

// Returns a byte of a word, the lowest first.
fn byte_of(word: u64, at: usize) -> u8
    requires { at < 8 }
    ensures { result ≡ word / 2 ^ (8 * at) % 256 }
{
    ((word >> (8 * at)) % 256) as u8
}

// Returns a byte of the bits of the rows of n inputs that words stand for.
fn word_byte(words: &[u64], n: u8, at: usize) -> u8
    requires { (n ≤ 8) × (8 * at < rows_of n) × (word_count n ≤ length words.now) }
    ensures { result ≡ row_byte (rows_of n) (word_row words.now) at }
{
    kept_bits(byte_of(words[at / 8], at % 8), n)
}

// Returns the bits of the rows of n inputs that words stand for.
fn word_bytes(words: &[u64], n: u8) -> [u8; 32]
    requires { (n ≤ 8) × (word_count n ≤ length words.now) }
    ensures { result ≡ row_bytes n (word_row words.now) }
{
    let count = byte_count(n);
    let mut bytes = [0u8; 32];
    for at in 0..count {
        bytes[at] = word_byte(words, n, at);
    }
    bytes
}

// Whether there are fewer words than a table of n inputs has.
fn few_words(words: &[u64], n: u8) -> bool
    requires { n ≤ 8 }
    ensures { result ≡ ltb (length words.now) (word_count n) }
{
    words.len() < (row_count(n) + 63) / 64
}

// Writes the record of the table that words stand for. Returns the length. Refusals: 2, 103, 12.
pub fn from_words(inputs: u32, words: &[u64], out: &mut [u8]) -> Result<u32, Refusal>
    ensures { WroteBytes (from_words inputs words.now (length out.old)) out.old result out.new }
{
    if 8 < inputs {
        return Err(Refusal::Inputs);
    }
    let n = inputs as u8;
    if few_words(words, n) {
        return Err(FEW_WORDS);
    }
    put_table_record(whole_table(n, word_bytes(words, n)), out)
}

// Writes the record of the table that words stand for, with the rows cared for that care words stand for. Returns the length. Refusals: 2, 103,
// 16, 12.
pub fn from_cares(inputs: u32, words: &[u64], cares: &[u64], out: &mut [u8]) -> Result<u32, Refusal>
    ensures { WroteBytes (from_cares inputs words.now cares.now (length out.old)) out.old result out.new }
{
    if 8 < inputs {
        return Err(Refusal::Inputs);
    }
    let n = inputs as u8;
    if few_words(words, n) {
        return Err(FEW_WORDS);
    }
    if few_words(cares, n) {
        return Err(FEW_WORDS);
    }
    let bytes = word_bytes(words, n);
    let cares = word_bytes(cares, n);
    put_table_record(Table { n, bytes, cares }, out)
}
