// A threshold gate: its distance and value on a row, and whether it realises a table.
ghost use Rattle.std.specs.Prelude.{◌≡◌, not, ◌||◌, ◌≤◌, ◌<◌};
ghost use Rattle.numbers.specs.Tests.{same_bool};
ghost use Rattle.table.specs.Gate.{within, place_limit, in_range, beyond};
ghost use Rattle.table.specs.Table.{value, cared, function_of};
ghost use Rattle.function.specs.Gate.{distance, gate_true, realises};
ghost use Rattle.function.specs.Function.{level};

use table::table::{row_cared, row_count, row_value};
use types::gate::Gate;
use types::table::Table;

// Returns the sum of the weights of a row's true inputs, less T. The sum is of 64 bits, so that it cannot wrap.
pub fn row_distance(weights: [i32; 8], threshold: i32, row: usize) -> i64
    requires { row < 256 }
    ensures { result ≡ distance weights threshold (level 2 row) }
{
    let mut sum = 0i64;
    for (place, weight) in weights.iter().enumerate() {
        if (row >> place) % 2 == 1 {
            sum += i64::from(*weight);
        }
    }
    sum - i64::from(threshold)
}

// Whether the gate is true on a row: the sum is at least T.
pub fn gate_true(gate: Gate, row: usize) -> bool
    requires { row < 256 }
    ensures { result ≡ gate_true gate.weights gate.threshold (level 2 row) }
{
    row_distance(gate.weights, gate.threshold, row) >= 0
}

// Whether the gate agrees with the table on a row, or the row is not cared for.
fn agrees_at(table: Table, gate: Gate, row: usize) -> bool
    requires { row < 256 }
    ensures { result ≡ (not (cared table row) || same_bool (gate_true gate.weights gate.threshold (level 2 row)) (value table row)) }
{
    !row_cared(table, row) || gate_true(gate, row) == row_value(table, row)
}

// Whether the gate agrees with the table on every row that is cared for.
pub fn gate_realises(table: Table, gate: Gate) -> bool
    requires { table.n ≤ 8 }
    ensures { result ≡ realises gate.weights gate.threshold (function_of table) }
{
    let rows = row_count(table.n);
    for row in 0..rows {
        if !agrees_at(table, gate, row) {
            return false;
        }
    }
    true
}

// Weights and T lie within this limit and its negation.
pub const WEIGHT_LIMIT: u32 = 1_000_000;

// Whether x lies within ±limit.
pub fn is_within(x: i32, limit: u32) -> bool
    ensures { result ≡ within limit x }
{
    x.unsigned_abs() <= limit
}

// Returns the most that a place may hold where the first n have a limit.
fn place_limit(limit: u32, n: usize, place: usize) -> u32
    ensures { result ≡ place_limit limit n place }
{
    if place < n { limit } else { 0 }
}

// Whether the weights of n inputs and T lie within ±limit, and the places past n hold 0.
pub fn in_range(weights: [i32; 8], threshold: i32, n: u8, limit: u32) -> bool
    ensures { result ≡ in_range limit n weights threshold }
{
    for (place, weight) in weights.iter().enumerate() {
        if !is_within(*weight, place_limit(limit, n as usize, place)) {
            return false;
        }
    }
    is_within(threshold, limit)
}

// Whether a weight or T is beyond its range, or a place past n is not 0.
pub fn gate_beyond(gate: Gate) -> bool
    ensures { result ≡ beyond gate }
{
    !in_range(gate.weights, gate.threshold, gate.n, WEIGHT_LIMIT)
}
