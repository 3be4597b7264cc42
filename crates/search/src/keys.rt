// What the search keeps of a table: for each row of its blocks what is taken from the distance, and the key.
ghost use Rattle.std.specs.Prelude.{◌≡◌, true, false, not, ◌&&◌, ℕ, ◌%◌, ◌≤◌, ◌<◌, length, get_or};
ghost use Rattle.table.specs.Table.{rows, rows_of, bit_at, value, cared};
ghost use Rattle.numbers.specs.Tabulate.{Holds};
ghost use Rattle.lanes.specs.Blocks.{lane_rows, lane_cared};
ghost use Rattle.search.specs.Keys.{one_of, key_of, goes_true};

use lanes::block::block_count;
use scan::scan::byte_values;
use table::table::{byte_count, row_count, some_free};
use types::table::Table;

// Repeats the bits of so many rows until 32 rows have one.
fn repeat_rows(bits: &mut [bool; 256], rows: usize)
    requires { (0 < rows) × (length bits.old ≡ 256) }
    ensures repeated { (row : ℕ) → row < 32 → get_or bits.new row false ≡ get_or bits.old (row % rows) false }
    ensures kept { (row : ℕ) → 32 ≤ row → get_or bits.new row false ≡ get_or bits.old row false }
{
    for row in rows..32 {
        bits[row] = bits[row - rows];
    }
}

// Returns the bit of each row of the blocks.
fn lane_bits(bytes: &[u8; 32], n: u8) -> [bool; 256]
    requires { n ≤ 8 }
    ensures { (row : ℕ) → row < lane_rows n → get_or result row false ≡ bit_at bytes.now (row % rows_of n) }
{
    let mut bits = byte_values(bytes, byte_count(n));
    repeat_rows(&mut bits, row_count(n));
    bits
}

// Returns the bits of the rows that are not cared for.
fn free_bytes(table: Table) -> [u8; 32]
    requires { table.n ≤ 8 }
    ensures { (row : ℕ) → row < rows table → bit_at result row ≡ not (cared table row) }
{
    let mut frees = [0u8; 32];
    for at in 0..byte_count(table.n) {
        frees[at] = !table.cares[at];
    }
    frees
}

// Returns the bits of the true rows that are cared for.
fn true_bytes(table: Table) -> [u8; 32]
    requires { table.n ≤ 8 }
    ensures { (row : ℕ) → row < rows table → bit_at result row ≡ (cared table row && value table row) }
{
    let mut trues = [0u8; 32];
    for at in 0..byte_count(table.n) {
        trues[at] = table.cares[at] & table.bytes[at];
    }
    trues
}

// Returns whether each row of the blocks is not cared for.
fn lane_frees(table: Table) -> [bool; 256]
    requires { table.n ≤ 8 }
    ensures { (row : ℕ) → row < lane_rows table.n → get_or result row false ≡ not (lane_cared table row) }
{
    let frees = free_bytes(table);
    lane_bits(&frees, table.n)
}

// Returns whether each row of the blocks goes as a true one.
fn lane_trues(table: Table) -> [bool; 256]
    requires { table.n ≤ 8 }
    ensures { (row : ℕ) → row < lane_rows table.n → get_or result row false ≡ goes_true table row }
{
    let trues = true_bytes(table);
    lane_bits(&trues, table.n)
}

// Stores what is taken from the distance of each row of the blocks where every row is cared for: 1 where it goes as a true one.
#[tactic(auto, using(lanes::proofs::WeightLaws::blocks_le))]
fn store_trues(ones: &mut [i16; 256], table: Table, trues: &[bool; 256])
    requires n_bound { (table.n ≤ 8) × ((row : ℕ) → row < rows table → cared table row ≡ true) }
    requires trues_are { ((row : ℕ) → row < lane_rows table.n → get_or trues.now row false ≡ goes_true table row) × (length ones.old ≡ 256) }
    ensures { Holds (one_of table) (lane_rows table.n) ones.new }
{
    let rows = 32 * block_count(table.n);
    for row in 0..rows {
        ones[row] = i16::from(trues[row]);
    }
}

// Stores what is taken from the distance of each row of the blocks: 1 where it goes as a true one, 16,384 where it is not cared for.
#[tactic(auto, using(lanes::proofs::WeightLaws::blocks_le))]
fn store_ones(ones: &mut [i16; 256], table: Table, frees: &[bool; 256], trues: &[bool; 256])
    requires n_bound { (table.n ≤ 8) × ((row : ℕ) → row < lane_rows table.n → get_or frees.now row false ≡ not (lane_cared table row)) }
    requires trues_are { ((row : ℕ) → row < lane_rows table.n → get_or trues.now row false ≡ goes_true table row) × (length ones.old ≡ 256) }
    ensures { Holds (one_of table) (lane_rows table.n) ones.new }
{
    let rows = 32 * block_count(table.n);
    for row in 0..rows {
        ones[row] = i16::from(trues[row]) + i16::from(frees[row]) * 16384;
    }
}

// Stores the key of each row of the blocks.
#[tactic(auto, using(lanes::proofs::WeightLaws::blocks_le))]
fn store_keys(keys: &mut [i16; 256], table: Table, trues: &[bool; 256])
    requires n_bound { (table.n ≤ 8) × ((row : ℕ) → row < lane_rows table.n → get_or trues.now row false ≡ goes_true table row) }
    requires keys_len { length keys.old ≡ 256 }
    ensures { Holds (key_of table) (lane_rows table.n) keys.new }
{
    let rows = 32 * block_count(table.n);
    for row in 0..rows {
        let flipped = if trues[row] { 1 } else { i16::MIN };
        keys[row] = row as i16 * 2 + flipped;
    }
}

// Stores the ones and the keys of the rows of a table's blocks.
pub fn store_rows(ones: &mut [i16; 256], keys: &mut [i16; 256], table: Table)
    requires { (table.n ≤ 8) × (length ones.old ≡ 256) × (length keys.old ≡ 256) }
    ensures { Holds (one_of table) (lane_rows table.n) ones.new × Holds (key_of table) (lane_rows table.n) keys.new }
{
    let trues = lane_trues(table);
    store_keys(keys, table, &trues);
    if some_free(table) {
        let frees = lane_frees(table);
        store_ones(ones, table, &frees, &trues);
    } else {
        store_trues(ones, table, &trues);
    }
}
