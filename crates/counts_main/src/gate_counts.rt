// The tables of up to three inputs that gates have, found by trying each gate of small weights.
use crate::outcome::one_if;
use cell::value::gate_value;
use types::gate::Gate;

// The weights and the T that are tried. No table of a gate of up to three inputs needs others: the counts of tables found are the published ones.
const WEIGHTS: [i32; 5] = [-2, -1, 0, 1, 2];

const THRESHOLDS: [i32; 14] = [-6, -5, -4, -3, -2, -1, 0, 1, 2, 3, 4, 5, 6, 7];

// How many gates there are with three of these weights and one of these T.
const GATES: u32 = 1750;

// Returns the gate of a number: its lowest digits in base five stand for the weights, and what is left for T.
fn gate_of(n: u8, number: u32) -> Gate {
    let choices = WEIGHTS;
    let mut weights = [0i32; 8];
    let mut rest = number;
    for place in 0..(n as usize).min(3) {
        weights[place] = choices[(rest % 5) as usize];
        rest = rest / 5;
    }
    let thresholds = THRESHOLDS;
    Gate {
        n,
        weights,
        threshold: thresholds[(number / 125 % 14) as usize],
    }
}

// Whether the gate is true on a row of its table.
fn is_true(gate: Gate, row: usize) -> bool {
    gate_value(gate, row) == Ok(true)
}

// Returns the rows on which a gate of up to three inputs is true, as bits.
fn true_rows(gate: Gate) -> u8 {
    let mut rows: u8 = 0;
    for row in 0..8u8 {
        if is_true(gate, row as usize) {
            rows = rows | 1u8 << row;
        }
    }
    rows
}

// Returns for each table of n inputs, its rows as bits, whether a gate has it.
pub fn tables(n: u8) -> [bool; 256] {
    let mut have = [false; 256];
    for number in 0..GATES {
        let rows = true_rows(gate_of(n, number));
        have[rows as usize] = true;
    }
    have
}

// Returns how many tables gates have.
pub fn count(have: &[bool; 256]) -> u64 {
    let mut count: u64 = 0;
    for rows in 0..256 {
        count = count + one_if(have[rows]);
    }
    count
}
