// The sums of a side: over the rows of a table whose value is true, or over those whose value is false. Sums are of 64 bits, so that none
// wraps.
ghost use Rattle.std.specs.Prelude.{◌≡◌, ℕ, ◌+◌, ◌*◌, ◌^◌, ◌≤◌, ◌<◌, length, get_or};
ghost use Rattle.numbers.specs.Tests.{same_bool};
ghost use Rattle.numbers.specs.Tabulate.{tabulate};
ghost use Rattle.table.specs.Table.{bit_at, function_of};
ghost use Rattle.table.specs.Witness.{CountArray};
ghost use Rattle.function.specs.Witness.{input_level, only_if, side_sum, count_of};
ghost use Rattle.function.specs.Function.{level};

use table::table::{row_bit, row_count};
use types::table::Table;

// Adds a row's count to the sum of input 0, and to that of each input that is true in the row.
fn add_levels(sums: &mut [u64; 9], row: usize, count: u64)
    requires { (row < 256) × (count < 2 ^ 32) × (length sums.old ≡ 9) × ((i : ℕ) → i < 9 → get_or sums.old i 0 < 2 ^ 40) }
    ensures { sums.new ≡ tabulate 9 (λ i. get_or sums.old i 0 + count * input_level (level 2 row) i) }
{
    // bit i is the level of input i
    let levels = 2 * row + 1;
    for (input, sum) in sums.iter_mut().enumerate() {
        *sum += count * ((levels >> input) % 2) as u64;
    }
}

// Adds to the sums of a side what a row of this count adds, by lent values.
fn add_row(sums: &mut [u64; 9], values: &[u8; 32], side: bool, row: usize, count: u32)
    requires { (row < 256) × (length sums.old ≡ 9) × ((i : ℕ) → i < 9 → get_or sums.old i 0 < 2 ^ 40) }
    ensures { sums.new ≡ tabulate 9 (λ i. get_or sums.old i 0 + only_if (same_bool (bit_at values.now row) side) (count * input_level (level 2 row) i)) }
{
    if count == 0 {
        return;
    }
    if row_bit(values, row) != side {
        return;
    }
    add_levels(sums, row, count as u64);
}

// Returns the sums of a side: for each input the counts of the rows whose value is `side`, each times the input's level.
pub fn side_sums(table: Table, side: bool, counts: &[u32; 256]) -> [u64; 9]
    requires { (table.n ≤ 8) × CountArray counts.now }
    ensures { result ≡ tabulate 9 (side_sum (function_of table) side (count_of counts.now)) }
{
    let rows = row_count(table.n);
    let values = table.bytes;
    let mut sums = [0u64; 9];
    for (row, count) in counts[..rows].iter().enumerate() {
        add_row(&mut sums, &values, side, row, *count);
    }
    sums
}
