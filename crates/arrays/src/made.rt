// A gate and a witness made of lent numbers.
ghost use Rattle.std.specs.Prelude.{◌≡◌, ◌≤◌, length, pos};
ghost use Rattle.table.specs.Table.{padded};
ghost use Rattle.arrays.specs.Arrays.{gate_with, witness_with};

use types::gate::Gate;
use types::table::Table;
use types::witness::Witness;

// Returns weights, and zeros behind them.
fn eight_weights(weights: &[i32]) -> [i32; 8]
    requires { length weights.now ≤ 8 }
    ensures { result ≡ padded 8 (pos 0) weights.now }
{
    let mut own = [0i32; 8];
    own[..weights.len()].copy_from_slice(weights);
    own
}

// Returns counts, and zeros behind them.
fn all_counts(counts: &[u32]) -> [u32; 256]
    requires { length counts.now ≤ 256 }
    ensures { result ≡ padded 256 0 counts.now }
{
    let mut own = [0u32; 256];
    own[..counts.len()].copy_from_slice(counts);
    own
}

// Returns the gate of these weights and T for a table.
pub fn gate_with(table: Table, weights: &[i32], threshold: i32) -> Gate
    requires { length weights.now ≤ 8 }
    ensures { result ≡ gate_with table weights.now threshold }
{
    let n = table.n;
    let weights = eight_weights(weights);
    Gate {
        n,
        weights,
        threshold,
    }
}

// Returns the witness of these counts.
pub fn witness_with(counts: &[u32]) -> Witness
    requires { length counts.now ≤ 256 }
    ensures { result ≡ witness_with counts.now }
{
    let counts = all_counts(counts);
    Witness { counts }
}
