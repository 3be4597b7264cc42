// The test of a table that every call starts with.
ghost use Rattle.std.specs.Prelude.{◌≡◌, ◌||◌, ◌≤◌};
ghost use Rattle.table.specs.Table.{spare_set};
ghost use Rattle.refusal.specs.TableRules.{table_checked};

use table::table::{spare_set, stray_value};
use types::refusal::Refusal;
use types::table::Table;

// Whether a bit that is no row's is set, among the values or the care bits.
fn spare_bits(table: Table) -> bool
    requires { table.n ≤ 8 }
    ensures { result ≡ (spare_set table.n table.bytes || spare_set table.n table.cares) }
{
    spare_set(table.n, table.bytes) || spare_set(table.n, table.cares)
}

// Returns whether the table keeps its format, or its refusal: 2, 3, then 16.
pub fn table_status(table: Table) -> Result<(), Refusal>
    ensures { result ≡ table_checked table }
{
    if 8 < table.n {
        return Err(Refusal::Inputs);
    }
    if spare_bits(table) {
        return Err(Refusal::SpareBit);
    }
    if stray_value(table) {
        return Err(Refusal::Care);
    }
    Ok(())
}
