// The kinds of a table's inputs.
ghost use Rattle.std.specs.Prelude.{◌≡◌};
ghost use Rattle.cell.specs.Calls.{input_kinds};

use refusal::refusal::table_status;
use rowwise::inputs::all_kinds;
use types::inputs::InputKind;
use types::refusal::Refusal;
use types::table::Table;

// Returns the kind of each input, idle, rising, falling or binate, input i at place i − 1; past n idle. Refusals: 2, 3, 16.
pub fn input_kinds(table: Table) -> Result<[InputKind; 8], Refusal>
    ensures { result ≡ input_kinds table }
{
    table_status(table)?;
    Ok(all_kinds(table))
}
