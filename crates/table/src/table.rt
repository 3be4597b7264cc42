// A truth table of up to eight inputs.
ghost use Rattle.std.specs.Prelude.{◌≡◌, ◌↔◌, true, false, not, ℕ, ◌*◌, ◌^◌, ◌≤◌, ◌<◌, IsTrue, EachIndex, slice_index};
ghost use Rattle.numbers.specs.Tests.{all_at_most};
ghost use Rattle.table.specs.Table.{rows_of, rows, byte_count, bit_at, value, cared, row_byte, every_row, whole_table, is_whole, stray_value, spare_set};

use types::table::Table;

// Returns the number of rows.
pub fn row_count(n: u8) -> usize
    requires { n ≤ 8 }
    ensures { result ≡ rows_of n }
{
    1usize << n
}

// Returns the number of bytes.
pub fn byte_count(n: u8) -> usize
    requires { n ≤ 8 }
    ensures { result ≡ byte_count n }
{
    (row_count(n) + 7) / 8
}

// Returns the bit of a row, among lent values or care bits.
pub fn row_bit(bits: &[u8; 32], row: usize) -> bool
    requires { row < 256 }
    ensures { result ≡ bit_at bits.now row }
{
    (bits[row / 8] >> (row % 8)) % 2 == 1
}

// Returns the table's value on a row.
pub fn row_value(table: Table, row: usize) -> bool
    requires { row < 256 }
    ensures { result ≡ value table row }
{
    row_bit(&table.bytes, row)
}

// Whether a row is cared for.
pub fn row_cared(table: Table, row: usize) -> bool
    requires { row < 256 }
    ensures { result ≡ cared table row }
{
    row_bit(&table.cares, row)
}

// Returns a byte with the bits of all its rows.
fn full_byte(n: u8) -> u8
    requires { n ≤ 8 }
    ensures rows { (k : ℕ) → 8 * k < rows_of n → result ≡ row_byte (rows_of n) (λ row. true) k }
    ensures largest { (b : ℕ) → b < 256 → (b ≤ result → b < 2 ^ rows_of n) × (result < b → 2 ^ rows_of n ≤ b) }
{
    if 3 <= n {
        return 255;
    }
    255 % (1u8 << row_count(n))
}

// Returns the care bits of a table with every row cared for.
pub fn every_row(n: u8) -> [u8; 32]
    requires { n ≤ 8 }
    ensures { result ≡ every_row n }
{
    let mut cares = [0u8; 32];
    cares[..byte_count(n)].fill(full_byte(n));
    cares
}

// Returns the table of these values, with every row cared for.
pub fn whole_table(n: u8, bytes: [u8; 32]) -> Table
    requires { n ≤ 8 }
    ensures { result ≡ whole_table n bytes }
{
    Table {
        n,
        bytes,
        cares: every_row(n),
    }
}

// Whether each of these bytes is the given one.
fn all_are(bytes: &[u8], given: u8) -> bool
    ensures { IsTrue result ↔ EachIndex bytes.now (λ k. slice_index bytes.now k ≡ given) }
{
    bytes.iter().all(|byte| *byte == given)
}

// Whether a byte of the care bits is not full. Where all are, every row is cared for.
pub fn some_free(table: Table) -> bool
    requires { table.n ≤ 8 }
    ensures { result ≡ false → (row : ℕ) → row < rows table → cared table row ≡ true }
{
    !all_are(&table.cares[..byte_count(table.n)], 255)
}

// Whether every row is cared for.
pub fn is_whole(table: Table) -> bool
    requires { (table.n ≤ 8) × (spare_set table.n table.cares ≡ false) }
    ensures { result ≡ is_whole table }
{
    all_are(&table.cares[..byte_count(table.n)], full_byte(table.n))
}

// Whether a row that is not cared for has a value bit.
// kept: the bits are gathered, since `any` asks byte by byte, which took a call that makes a table a quarter to a half more
pub fn stray_value(table: Table) -> bool
    requires { (table.n ≤ 8) × (spare_set table.n table.bytes ≡ false) }
    ensures { result ≡ stray_value table }
{
    let count = byte_count(table.n);
    let mut stray = 0u8;
    for at in 0..count {
        stray |= table.bytes[at] & !table.cares[at];
    }
    stray != 0
}

// Whether a byte is not 0.
// kept: the bits are gathered and not tested byte by byte, which was measured to take twice the time
fn nonzero(bytes: &[u8]) -> bool
    ensures { result ≡ not (all_at_most 0 bytes.now) }
{
    let mut set = 0u8;
    for byte in bytes {
        set |= *byte;
    }
    set != 0
}

// Whether a bit that is no row's is set, among values or care bits.
pub fn spare_set(n: u8, bytes: [u8; 32]) -> bool
    requires { n ≤ 8 }
    ensures { result ≡ spare_set n bytes }
{
    let count = byte_count(n);
    full_byte(n) < bytes[count - 1] || nonzero(&bytes[count..])
}
