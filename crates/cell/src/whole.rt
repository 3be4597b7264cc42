// Tables with every row cared for.
ghost use Rattle.std.specs.Prelude.{◌≡◌};
ghost use Rattle.cell.specs.Whole.{as_whole};

use types::table::Table;

// Returns the table of these values, with every row cared for. Above eight inputs, which every call refuses, no row is.
pub fn whole_table(n: u8, bytes: [u8; 32]) -> Table
    ensures { result ≡ as_whole n bytes }
{
    if 8 < n {
        return Table {
            n,
            bytes,
            cares: [0u8; 32],
        };
    }
    table::table::whole_table(n, bytes)
}
