// A table's rows as bits: row r is bit r mod 64 of word r div 64, so that one operation serves 64 rows.
ghost use Rattle.std.specs.Prelude.{◌≡◌, Bool, ℕ, ◌*◌, ◌≤◌, ◌<◌};
ghost use Rattle.numbers.specs.Tabulate.{tabulate};
ghost use Rattle.numbers.specs.Packed.{packed};
ghost use Rattle.unateness.specs.Words.{lacks, bits_from, word_of, side_words, pairs_of};
ghost use Rattle.scan.specs.Scan.{in_table};

use table::table::row_count;
use types::table::Table;

// Returns the eight bytes from `first` on as one number, lowest byte first.
fn eight_bytes(bytes: &[u8; 32], first: usize) -> u64
    requires { first ≤ 24 }
    ensures { result ≡ packed 64 (bits_from bytes.now (8 * first)) }
{
    let mut word = 0u64;
    for (at, byte) in bytes[first..first + 8].iter().enumerate() {
        word += u64::from(*byte) << (8 * at);
    }
    word
}

// Returns the bits of the 64 rows from 64 * at on; past the `rows` of the table they are 0.
fn word_at(bytes: &[u8; 32], rows: usize, at: usize) -> u64
    requires { at < 4 }
    ensures { result ≡ word_of (in_table rows bytes.now) at }
{
    let first = 64 * at;
    if rows <= first {
        return 0;
    }
    let word = eight_bytes(bytes, 8 * at);
    let left = rows - first;
    if left < 64 {
        return word % (1u64 << left);
    }
    word
}

// The rows that are cared for: the true ones, and the false ones.
#[derive(Clone, Copy)]
pub struct Sides {
    pub trues: [u64; 4],
    pub falses: [u64; 4],
}

// Returns the rows of the table that are cared for, by their values.
pub fn side_words(table: Table) -> Sides
    requires { table.n ≤ 8 }
    ensures { result ≡ side_words table }
{
    let rows = row_count(table.n);
    let mut trues = [0u64; 4];
    let mut falses = [0u64; 4];
    for at in 0..4 {
        let cared = word_at(&table.cares, rows, at);
        let values = eight_bytes(&table.bytes, 8 * at);
        trues[at] = cared & values;
        falses[at] = cared & !values;
    }
    Sides { trues, falses }
}

// The bits of 64 rows without an input, and of their partners with it. Rows that have the input are 0 in both.
#[derive(Clone, Copy)]
pub struct Pairs {
    pub own: u64,
    pub partner: u64,
}

// Returns which of 64 rows lack the input of a place below 6. Of a higher place the answer is not used.
#[tactic(auto, unfolding(numbers::specs::Packed::packed))]
pub fn rows_without(place: usize) -> u64
    ensures { place < 6 → result ≡ packed 64 (lacks place) }
{
    match place {
        0 => 0x5555555555555555,
        1 => 0x3333333333333333,
        2 => 0x0F0F0F0F0F0F0F0F,
        3 => 0x00FF00FF00FF00FF,
        4 => 0x0000FFFF0000FFFF,
        5 => 0x00000000FFFFFFFF,
        _ => 0,
    }
}

// Returns the pairs of a place's input whose rows without it are among the 64 from 64 * at on. The input of a place below 6 pairs rows of
// one word, of which `lacking` are without it, and that of a higher place rows of two.
pub fn pairs_at(words: &[u64; 4], lacking: u64, place: usize, at: usize) -> Pairs
    requires { (place < 8) × (at < 4) × (place < 6 → lacking ≡ packed 64 (lacks place)) }
    ensures { (f : ℕ → Bool) → words.now ≡ tabulate 4 (word_of f) → result ≡ pairs_of f place at }
{
    let own = words[at];
    if place < 6 {
        let moved = own >> (1u64 << place);
        return Pairs {
            own: own & lacking,
            partner: moved & lacking,
        };
    }
    let high = place - 6;
    if (at >> high) % 2 == 1 {
        return Pairs { own: 0, partner: 0 };
    }
    let partner = words[at + (1usize << high)];
    Pairs { own, partner }
}
