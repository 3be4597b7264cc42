// The checker: it takes a table with a gate or a witness, from anyone, and says yes or no. The tests of their formats, with which it starts,
// stand first.
ghost use Rattle.std.specs.Prelude.{◌≡◌};
ghost use Rattle.cell.specs.Calls.{gate_checked, witness_checked, check_gate, check_witness};

use gates::gate::{gate_beyond, gate_realises};
use refusal::refusal::table_status;
use rowwise::witness::witness_unfit;
use sides::balance::is_balanced;
use types::gate::Gate;
use types::refusal::Refusal;
use types::table::Table;
use types::witness::Witness;

// Returns whether the table and the gate beside it keep their formats, or their refusal: 2, 3, 16, then 7.
fn gate_status(table: Table, gate: Gate) -> Result<(), Refusal>
    ensures { result ≡ gate_checked table gate }
{
    if gate.n != table.n {
        return Err(Refusal::Inputs);
    }
    table_status(table)?;
    if gate_beyond(gate) {
        return Err(Refusal::Gate);
    }
    Ok(())
}

// Returns whether the table and the witness beside it keep their formats, or their refusal: 2, 3, 16, then 8.
fn witness_status(table: Table, witness: Witness) -> Result<(), Refusal>
    ensures { result ≡ witness_checked table witness }
{
    table_status(table)?;
    if witness_unfit(table, witness) {
        return Err(Refusal::RowList);
    }
    Ok(())
}

// Says whether the gate agrees with the table on every row that is cared for. Refusals: 2, 3, 16, 7.
pub fn check_gate(table: Table, gate: Gate) -> Result<bool, Refusal>
    ensures { result ≡ check_gate table gate }
{
    gate_status(table, gate)?;
    Ok(gate_realises(table, gate))
}

// Says whether the witness balances, after which no gate realises the table. Refusals: 2, 3, 16, 8.
pub fn check_witness(table: Table, witness: Witness) -> Result<bool, Refusal>
    ensures { result ≡ check_witness table witness }
{
    witness_status(table, witness)?;
    Ok(is_balanced(table, witness))
}
