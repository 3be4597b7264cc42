// A witness as text, written into a lent buffer at a position. Each function that writes returns the position after its text.
ghost use Rattle.std.specs.Prelude.{◌≡◌, ◌*◌, ◌≤◌, ◌<◌};
ghost use Rattle.table.specs.Table.{bit_at};
ghost use Rattle.function.specs.Witness.{only_if};
ghost use Rattle.heights.specs.Page.{true_inputs, manual_page};
ghost use Rattle.codec.specs.Written.{Room, Put};
ghost use Rattle.notation.specs.WitnessText.{height, pair_text, pairs_text, witness_text};

use heights::page::page;
use table::table::{row_bit, row_count};
use text::decimal::put_decimal;
use text::field::{put_byte, put_letter, put_number};
use types::table::Table;

// Returns what a row adds to the height: if it is true, its count × its true inputs, by the manual's page. The count is asked first, since most
// rows have none and their values take longer to look up.
#[tactic(auto, using(heights::proofs::PageLaws::page_entry, crate::proofs::HeightLaws::product_most))]
fn height_term(values: &[u8; 32], heights: &[u8; 256], row: usize, count: u32) -> u64
    requires { (row < 256) × (heights.now ≡ manual_page) }
    ensures { (result ≡ only_if (bit_at values.now row) (count * true_inputs 8 row)) × (result ≤ 34359738360) }
{
    if count > 0 && row_bit(values, row) {
        return count as u64 * heights[row] as u64;
    }
    0
}

// Returns the sum of count × true inputs over true rows.
fn height_of(table: Table, counts: &[u32; 256]) -> u64
    requires { table.n ≤ 8 }
    ensures { result ≡ height table counts.now }
{
    let heights = page();
    let mut sum: u64 = 0;
    for (row, count) in counts[..row_count(table.n)].iter().enumerate() {
        sum += height_term(&table.bytes, &heights, row, *count);
    }
    sum
}

// Writes the pair of a row, or nothing if its count is 0.
fn put_pair(out: &mut [u8], at: usize, row: u64, count: u32) -> usize
    requires { Room out.old at (pair_text row count) }
    ensures { Put out.old at (pair_text row count) out.new result }
{
    if count == 0 {
        return at;
    }
    let mut here = put_number(out, at, row);
    here = put_byte(out, here, b':');
    put_decimal(out, here, count as u64)
}

// Writes the pairs of so many rows.
fn put_pairs(out: &mut [u8], at: usize, counts: &[u32; 256], rows: usize) -> usize
    requires { (rows ≤ 256) × Room out.old at (pairs_text counts.now rows 0) }
    ensures { Put out.old at (pairs_text counts.now rows 0) out.new result }
{
    let mut here = at;
    for (row, count) in counts[..rows].iter().enumerate() {
        here = put_pair(out, here, row as u64, *count);
    }
    here
}

// Writes N, K, height and pairs.
#[tactic(auto, unfolding(crate::specs::WitnessText::witness_text))]
pub fn put_witness(out: &mut [u8], at: usize, k: u32, table: Table, counts: &[u32; 256]) -> usize
    requires { (table.n ≤ 8) × Room out.old at (witness_text k table counts.now) }
    ensures { Put out.old at (witness_text k table counts.now) out.new result }
{
    let mut here = put_letter(out, at, b'N');
    here = put_number(out, here, k as u64);
    here = put_number(out, here, height_of(table, counts));
    put_pairs(out, here, counts, row_count(table.n))
}
