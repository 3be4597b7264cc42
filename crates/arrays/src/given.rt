// A gate and a witness from lent numbers, written as records with their table.
ghost use Rattle.std.specs.Prelude.{◌≤◌, length};
ghost use Rattle.writers.specs.Calls.{WroteBytes};
ghost use Rattle.arrays.specs.Arrays.{from_gate, from_witness};

use crate::made::{gate_with, witness_with};
use results::result::short_length;
use table::table::row_count;
use types::refusal::Refusal;
use types::table::Table;
use writers::write::{write_gate, write_witness};

// Writes a table with the gate of these numbers. Returns the length. Refusals: 104, 16, 7, 12.
pub fn from_gate(
    table: Table,
    weights: &[i32],
    threshold: i32,
    out: &mut [u8],
) -> Result<u32, Refusal>
    requires { table.n ≤ 8 }
    ensures { WroteBytes (from_gate table weights.now threshold (length out.old)) out.old result out.new }
{
    if weights.len() != table.n as usize {
        return Err(Refusal::Numbers);
    }
    short_length(write_gate(table, gate_with(table, weights, threshold), out))
}

// Writes a table with the witness of these counts. Returns the length. Refusals: 104, 16, 8, 12.
pub fn from_witness(table: Table, counts: &[u32], out: &mut [u8]) -> Result<u32, Refusal>
    requires { table.n ≤ 8 }
    ensures { WroteBytes (from_witness table counts.now (length out.old)) out.old result out.new }
{
    if counts.len() != row_count(table.n) {
        return Err(Refusal::Numbers);
    }
    short_length(write_witness(table, witness_with(counts), out))
}
