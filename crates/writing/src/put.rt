// Fields written into a lent buffer at a position. Each function returns the position after its field, and all other bytes keep their
// values.
ghost use Rattle.std.specs.Prelude.{◌≡◌, true, false, [], ◌∷◌, ◌≤◌, ◌<◌, length, take};
ghost use Rattle.table.specs.Table.{spare_set};
ghost use Rattle.table.specs.Gate.{weight_limit, in_range};
ghost use Rattle.codec.specs.Written.{Room, Put};
ghost use Rattle.codec.specs.Number.{number_bytes};
ghost use Rattle.codec.specs.VectorField.{vector_bytes};
ghost use Rattle.codec.specs.TableField.{care_bytes, table_bytes};

use crate::length::signed_code;
use table::table::{byte_count, is_whole};
use types::table::Table;
use types::vector::Vector;

// Writes a number below 2^21.
pub fn put_number(out: &mut [u8], at: usize, x: u32) -> usize
    requires { (x < 2097152) × Room out.old at (number_bytes x) }
    ensures { Put out.old at (number_bytes x) out.new result }
{
    if x < 128 {
        out[at] = x as u8;
        return at + 1;
    }
    out[at] = (128 + x % 128) as u8;
    if x < 16_384 {
        out[at + 1] = (x / 128) as u8;
        return at + 2;
    }
    out[at + 1] = (128 + x / 128 % 128) as u8;
    out[at + 2] = (x / 16_384) as u8;
    at + 3
}

// Writes n weights and b, of a vector in range.
pub fn put_vector(out: &mut [u8], at: usize, n: u8, v: Vector) -> usize
    requires { (n ≤ 8) × (in_range weight_limit 8 v.a v.b ≡ true) × Room out.old at (vector_bytes n v) }
    ensures { Put out.old at (vector_bytes n v) out.new result }
{
    let a = v.a;
    let mut here = at;
    for weight in &a[..n as usize] {
        here = put_number(out, here, signed_code(*weight));
    }
    put_number(out, here, signed_code(v.b))
}

// Writes the kind byte of a record.
pub fn put_kind(out: &mut [u8], at: usize, kind: u8) -> usize
    requires { Room out.old at (kind ∷ []) }
    ensures { Put out.old at (kind ∷ []) out.new result }
{
    out[at] = kind;
    at + 1
}

// Writes the first bytes of those that hold bits.
fn put_bits(out: &mut [u8], at: usize, bits: &[u8], count: usize) -> usize
    requires { (count ≤ length bits.now) × Room out.old at (take count bits.now) }
    ensures { Put out.old at (take count bits.now) out.new result }
{
    let next = at + count;
    out[at..next].copy_from_slice(&bits[..count]);
    next
}

// Writes the care bits of a table, where a row is not cared for.
fn put_cares(out: &mut [u8], at: usize, table: Table) -> usize
    requires { (table.n ≤ 8) × (spare_set table.n table.cares ≡ false) × Room out.old at (care_bytes table) }
    ensures { Put out.old at (care_bytes table) out.new result }
{
    if is_whole(table) {
        return at;
    }
    let cares = table.cares;
    put_bits(out, at, &cares, byte_count(table.n))
}

// Writes a table: n, then its values, then its care bits, where a row is not cared for.
pub fn put_table(out: &mut [u8], at: usize, table: Table) -> usize
    requires { (table.n ≤ 8) × (spare_set table.n table.cares ≡ false) × Room out.old at (table_bytes table) }
    ensures { Put out.old at (table_bytes table) out.new result }
{
    let bytes = table.bytes;
    let bits_at = put_number(out, at, table.n as u32);
    let cares_at = put_bits(out, bits_at, &bytes, byte_count(table.n));
    put_cares(out, cares_at, table)
}
