// The search for the lowest failing row: the distances of the rows are made one from another, in the order of the rows, and the search
// stops at the first that fails.
ghost use Rattle.std.specs.Prelude.{◌≡◌, true, ◌&&◌, ℕ, ◌+◌, ◌*◌, ◌^◌, ◌≤◌, ◌<◌, length, get_or, pos, nat_abs};
ghost use Rattle.std.specs.Int.Signed.{lt_z};
ghost use Rattle.numbers.specs.Tests.{first_from};
ghost use Rattle.numbers.specs.Tabulate.{Holds};
ghost use Rattle.table.specs.Table.{bit_at, function_of};
ghost use Rattle.table.specs.Gate.{weight_limit, in_range};
ghost use Rattle.function.specs.Failing.{margin, failing};
ghost use Rattle.scan.specs.Scan.{fails_at, doubled, values_below};
ghost use Rattle.function.specs.Gate.{distance};

use table::table::row_bit;
use types::table::Table;
use types::vector::Vector;

// Stores the bits of the eight rows of a byte, where those of the rows before it stand. A byte 0 has nothing to store.
fn store_byte(values: &mut [bool; 256], bytes: &[u8; 32], at: usize)
    requires { (at < 32) × (values.old ≡ values_below (8 * at) bytes.now) }
    ensures { values.new ≡ values_below (8 * (at + 1)) bytes.now }
{
    let byte = bytes[at];
    if byte == 0 {
        return;
    }
    for bit in 0..8 {
        values[8 * at + bit] = (byte >> bit) % 2 == 1;
    }
}

// Returns the bits of the rows of the first `count` bytes, for a search by blocks. The other rows are false.
pub fn byte_values(bytes: &[u8; 32], count: usize) -> [bool; 256]
    requires { count ≤ 32 }
    ensures { result ≡ values_below (8 * count) bytes.now }
{
    let mut values = [false; 256];
    for byte in 0..count {
        store_byte(&mut values, bytes, byte);
    }
    values
}

// Whether a row of this care, value and distance fails: it is cared for, and its margin is below 1.
pub fn fails_by(cared: bool, value: bool, distance: i64) -> bool
    ensures { result ≡ (cared && lt_z (margin value distance) (pos 1)) }
{
    if !cared {
        return false;
    }
    if value { distance < 1 } else { -1 < distance }
}

// The same by lent care bits and values. Few rows have a margin below 1, and the care bits are asked for these alone.
fn fails_in(cares: &[u8; 32], values: &[u8; 32], distance: i64, row: usize) -> bool
    requires { row < 256 }
    ensures { result ≡ (bit_at cares.now row && lt_z (margin (bit_at values.now row) distance) (pos 1)) }
{
    let value = row_bit(values, row);
    fails_by(true, value, distance) && row_bit(cares, row)
}

// Searches the rows from `half` to twice `half`: each has the distance of the row `half` below it and one more weight.
fn search_block(
    distances: &mut [i32],
    cares: &[u8; 32],
    values: &[u8; 32],
    half: usize,
    weight: i32,
) -> Option<usize>
    requires half_bound { (half ≤ 128) × (half + half ≤ length distances.old) }
    requires sums_fit { (r : ℕ) → r < half → nat_abs (get_or distances.old r (pos 0)) + nat_abs weight < 2 ^ 31 }
    ensures value { result ≡ first_from (fails_at cares.now values.now (doubled half weight distances.old)) half half }
    ensures holds { result ≡ None → Holds (doubled half weight distances.old) (half + half) distances.new }
{
    for at in 0..half {
        let row = half + at;
        let distance = distances[at] + weight;
        distances[row] = distance;
        if fails_in(cares, values, distance as i64, row) {
            return Some(row);
        }
    }
    None
}

// Returns the lowest failing row. What `distances` held does not matter: it is room to work in.
pub fn first_failing(
    distances: &mut [i32; 256],
    cares: &[u8; 32],
    values: &[u8; 32],
    table: Table,
    v: Vector,
) -> Option<usize>
    requires n_bound { (table.n ≤ 8) × (in_range weight_limit 8 v.a v.b ≡ true) }
    requires cares_value { (cares.now ≡ table.cares) × (values.now ≡ table.bytes) }
    ensures { result ≡ failing (function_of table) v }
{
    let first = 0 - v.b;
    if fails_in(cares, values, first as i64, 0) {
        return Some(0);
    }
    distances[0] = first;
    let n = table.n as usize;
    for (place, weight) in v.a[..n].iter().enumerate() {
        if let Some(row) = search_block(distances, cares, values, 1usize << place, *weight) {
            return Some(row);
        }
    }
    None
}
