// A table: n as a number, then the values of its rows and, where a row is not cared for, their care bits.
ghost use Rattle.std.specs.Prelude.{◌≡◌, true, false, ◌+◌, ◌≤◌, length, take, drop};
ghost use Rattle.table.specs.Table.{padded, spare_set};
ghost use Rattle.codec.specs.TableField.{bits_at, row_bits_at, cares_at, table_at};

use numerals::number::read_number;
use table::table::{is_whole, row_count, spare_set, stray_value, whole_table};
use types::field::Field;
use types::refusal::Refusal;
use types::table::Table;

// Returns so many bytes at a position, and zeros behind them.
fn bytes_at(bytes: &[u8], at: usize, count: usize) -> [u8; 32]
    requires { (count ≤ 32) × (at + count ≤ length bytes.now) }
    ensures { result ≡ padded 32 0 (take count (drop at bytes.now)) }
{
    let mut own = [0u8; 32];
    own[..count].copy_from_slice(&bytes[at..at + count]);
    own
}

// Reads the bits of so many rows at a position. Refusal: 1.
fn read_bits(bytes: &[u8], at: usize, rows: usize) -> Result<Field<[u8; 32]>, Refusal>
    requires { (rows ≤ 256) × (at ≤ length bytes.now) }
    ensures { result ≡ bits_at rows bytes.now at }
{
    let count = (rows + 7) / 8;
    if bytes.len() - at < count {
        return Err(Refusal::EndsEarly);
    }
    Ok(Field {
        value: bytes_at(bytes, at, count),
        next: at + count,
    })
}

// Reads the bits of the rows of n inputs at a position, values or care bits. Refusals: 1, 3.
#[tactic(auto, unfolding(codec::specs::TableField::row_bits_at))]
fn read_row_bits(bytes: &[u8], at: usize, n: u8) -> Result<Field<[u8; 32]>, Refusal>
    requires { (n ≤ 8) × (at ≤ length bytes.now) }
    ensures { result ≡ row_bits_at n bytes.now at }
{
    let field = read_bits(bytes, at, row_count(n))?;
    if spare_set(n, field.value) {
        return Err(Refusal::SpareBit);
    }
    Ok(field)
}

// Reads the care bits that follow values at a position, and makes the table. Refusals: 1, 3, 16.
#[tactic(auto, unfolding(codec::specs::TableField::cares_at))]
fn read_cares(bytes: &[u8], at: usize, n: u8, values: [u8; 32]) -> Result<Field<Table>, Refusal>
    requires { (n ≤ 8) × (at ≤ length bytes.now) × (spare_set n values ≡ false) }
    ensures { result ≡ cares_at true n values bytes.now at }
{
    let field = read_row_bits(bytes, at, n)?;
    let cares = field.value;
    let table = Table {
        n,
        bytes: values,
        cares,
    };
    if stray_value(table) || is_whole(table) {
        return Err(Refusal::Care);
    }
    Ok(Field {
        value: table,
        next: field.next,
    })
}

// Reads what follows the values of a table: care bits where there are any; otherwise every row is cared for. Refusals: 1, 3, 16.
#[tactic(auto, unfolding(codec::specs::TableField::cares_at))]
fn after_values(
    bytes: &[u8],
    field: Field<[u8; 32]>,
    n: u8,
    cares: bool,
) -> Result<Field<Table>, Refusal>
    requires { (n ≤ 8) × (field.next ≤ length bytes.now) × (spare_set n field.value ≡ false) }
    ensures { result ≡ cares_at cares n field.value bytes.now field.next }
{
    if cares {
        return read_cares(bytes, field.next, n, field.value);
    }
    Ok(Field {
        value: whole_table(n, field.value),
        next: field.next,
    })
}

// Reads the table at a position, by whether care bytes follow its value bytes. Refusals: 1, 4, 2 of n; 1, 3 of its values; 1, 3, 16 of its care
// bits.
#[tactic(auto, unfolding(codec::specs::TableField::table_at))]
pub fn read_table(bytes: &[u8], at: usize, cares: bool) -> Result<Field<Table>, Refusal>
    ensures { result ≡ table_at cares bytes.now at }
{
    let inputs = read_number(bytes, at)?;
    if 8 < inputs.value {
        return Err(Refusal::Inputs);
    }
    let n = inputs.value as u8;
    let field = read_row_bits(bytes, inputs.next, n)?;
    after_values(bytes, field, n, cares)
}
