// The value of a table and of a gate on a row.
ghost use Rattle.std.specs.Prelude.{◌≡◌};
ghost use Rattle.cell.specs.Calls.{table_value, gate_value};

use gates::gate::{gate_beyond, gate_true};
use refusal::refusal::table_status;
use table::table::{row_count, row_value};
use types::gate::Gate;
use types::refusal::Refusal;
use types::table::Table;

// Returns the table's value on a row. Refusals: 2, 3, 16, 14.
pub fn table_value(table: Table, row: usize) -> Result<bool, Refusal>
    ensures { result ≡ table_value table row }
{
    table_status(table)?;
    if row_count(table.n) <= row {
        return Err(Refusal::Row);
    }
    Ok(row_value(table, row))
}

// Returns the gate's value on a row: whether the sum of the true inputs' weights is at least T. Refusals: 2, 7, 14.
pub fn gate_value(gate: Gate, row: usize) -> Result<bool, Refusal>
    ensures { result ≡ gate_value gate row }
{
    if 8 < gate.n {
        return Err(Refusal::Inputs);
    }
    if gate_beyond(gate) {
        return Err(Refusal::Gate);
    }
    if row_count(gate.n) <= row {
        return Err(Refusal::Row);
    }
    Ok(gate_true(gate, row))
}
