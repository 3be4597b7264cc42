// Row lists written.
ghost use Rattle.std.specs.Prelude.{◌≡◌, true, ◌≤◌, ◌<◌, length, drop};
ghost use Rattle.numbers.specs.Tests.{all_at_most};
ghost use Rattle.table.specs.Witness.{count_limit};
ghost use Rattle.codec.specs.Written.{Room, Put};
ghost use Rattle.codec.specs.RowList.{pair_bytes, filled_from, row_list_bytes};

use writing::length::number_length;
use writing::put::put_number;

// Returns how many of so many rows have a count above 0.
fn filled(counts: &[u32; 256], rows: usize) -> u32
    requires { rows ≤ 256 }
    ensures { result ≡ filled_from counts.now rows 0 }
{
    counts[..rows].iter().filter(|count| 0 < **count).count() as u32
}

// Returns how many bytes the pair of a row takes: none where its count is 0.
fn pair_length(row: u32, count: u32) -> usize
    ensures { result ≡ length (pair_bytes row count) }
{
    if count == 0 {
        return 0;
    }
    number_length(row) + number_length(count)
}

// Returns how many bytes a row list takes: the counts past so many rows are 0.
pub fn rows_length(counts: &[u32; 256], rows: usize) -> usize
    requires { (rows ≤ 256) × (all_at_most 0 (drop rows counts.now) ≡ true) }
    ensures { result ≡ length (row_list_bytes counts.now) }
{
    let mut length = number_length(filled(counts, rows));
    for (row, count) in counts[..rows].iter().enumerate() {
        length += pair_length(row as u32, *count);
    }
    length
}

// Writes the pair of a row: nothing where its count is 0. Returns the position after it.
fn put_pair(out: &mut [u8], at: usize, row: u32, count: u32) -> usize
    requires { (row < 2097152) × (count < 2097152) × Room out.old at (pair_bytes row count) }
    ensures { Put out.old at (pair_bytes row count) out.new result }
{
    if count == 0 {
        return at;
    }
    let middle = put_number(out, at, row);
    put_number(out, middle, count)
}

// Writes a row list at the start of a buffer, the unwritten end of the record's: no count is above the limit, and those past so many rows
// are 0. Returns its length.
pub fn put_rows(out: &mut [u8], counts: &[u32; 256], rows: usize) -> usize
    requires { (rows ≤ 256) × (all_at_most 0 (drop rows counts.now) ≡ true) × (all_at_most count_limit counts.now ≡ true) × Room out.old 0 (row_list_bytes counts.now) }
    ensures { Put out.old 0 (row_list_bytes counts.now) out.new result }
{
    let mut here = put_number(out, 0, filled(counts, rows));
    for (row, count) in counts[..rows].iter().enumerate() {
        here = put_pair(out, here, row as u32, *count);
    }
    here
}
