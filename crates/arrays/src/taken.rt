// The numbers of a gate and of a witness, written into lent arrays.
ghost use Rattle.std.specs.Prelude.{◌≤◌, length};
ghost use Rattle.writers.specs.Calls.{fitted, WroteBytes};
ghost use Rattle.arrays.specs.Arrays.{fitted_gate, PutGate, counts_of};

use table::table::row_count;
use types::gate::Gate;
use types::refusal::Refusal;
use types::table::Table;
use types::witness::Witness;

// Writes the weights of a gate's inputs and sets the threshold. Returns n, or the refusal: 12.
pub fn put_weights(gate: Gate, weights: &mut [i32], threshold: &mut i32) -> Result<u32, Refusal>
    requires { gate.n ≤ 8 }
    ensures { PutGate (fitted_gate (length weights.old) gate) weights.old threshold.old result weights.new threshold.new }
{
    let n = gate.n as usize;
    if weights.len() < n {
        return Err(Refusal::Room);
    }
    weights[..n].copy_from_slice(&gate.weights[..n]);
    *threshold = gate.threshold;
    Ok(n as u32)
}

// Writes the count of each row of a table. Returns the number of rows, or the refusal: 12.
pub fn put_counts(table: Table, witness: Witness, counts: &mut [u32]) -> Result<u32, Refusal>
    requires { table.n ≤ 8 }
    ensures { WroteBytes (fitted (length counts.old) (counts_of table witness)) counts.old result counts.new }
{
    let rows = row_count(table.n);
    if counts.len() < rows {
        return Err(Refusal::Room);
    }
    counts[..rows].copy_from_slice(&witness.counts[..rows]);
    Ok(rows as u32)
}
