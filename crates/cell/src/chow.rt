// Chow's parameters of a table.
ghost use Rattle.std.specs.Prelude.{◌≡◌};
ghost use Rattle.cell.specs.Calls.{chow_parameters};

use refusal::refusal::table_status;
use sides::chow::all_chow;
use types::refusal::Refusal;
use types::table::Table;

// Returns q of each input, twice the true rows in which it is true less all true rows, input i at place i − 1; past n 0. Refusals: 2, 3, 16.
pub fn chow_parameters(table: Table) -> Result<[i32; 8], Refusal>
    ensures { result ≡ chow_parameters table }
{
    table_status(table)?;
    Ok(all_chow(table))
}
