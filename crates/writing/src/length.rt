// How many bytes fields take.
ghost use Rattle.std.specs.Prelude.{◌≡◌, false, ◌≤◌, length};
ghost use Rattle.table.specs.Table.{spare_set};
ghost use Rattle.codec.specs.Number.{number_bytes, signed_code};
ghost use Rattle.codec.specs.VectorField.{vector_bytes};
ghost use Rattle.codec.specs.TableField.{table_bytes};

use table::table::{byte_count, is_whole};
use types::table::Table;
use types::vector::Vector;

// Returns how many bytes a number takes.
#[tactic(auto, unfolding(codec::specs::Number::number_bytes, codec::specs::Number::group_bytes))]
pub fn number_length(x: u32) -> usize
    ensures { result ≡ length (number_bytes x) }
{
    if x < 128 {
        return 1;
    }
    if x < 16_384 { 2 } else { 3 }
}

// Returns the number that stands for an integer: 2z, or −2z − 1 when negative.
pub fn signed_code(z: i32) -> u32
    ensures { result ≡ signed_code z }
{
    if z < 0 {
        ((-1 - z) as u32) * 2 + 1
    } else {
        (z as u32) * 2
    }
}

// Returns how many bytes n weights and b take.
pub fn vector_length(v: Vector, n: u8) -> usize
    requires { n ≤ 8 }
    ensures { result ≡ length (vector_bytes n v) }
{
    let a = v.a;
    let mut length: usize = 0;
    for weight in &a[..n as usize] {
        length += number_length(signed_code(*weight));
    }
    length + number_length(signed_code(v.b))
}

// Returns how many bytes a table takes: one for n, those of its values, and those of its care bits, where a row is not cared for.
pub fn table_length(table: Table) -> usize
    requires { (table.n ≤ 8) × (spare_set table.n table.cares ≡ false) }
    ensures { result ≡ length (table_bytes table) }
{
    let bits = byte_count(table.n);
    if is_whole(table) {
        return 1 + bits;
    }
    1 + bits + bits
}
