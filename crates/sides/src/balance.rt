// Whether a witness balances.
ghost use Rattle.std.specs.Prelude.{◌≡◌, ◌≤◌};
ghost use Rattle.table.specs.Table.{function_of};
ghost use Rattle.function.specs.Witness.{count_of, balances};

use crate::sums::side_sums;
use rowwise::witness::counts_cared;
use types::table::Table;
use types::witness::Witness;

// Whether the true rows and the false rows have the same total of counts, above 0, and the same total for each input, and no row that is not
// cared for has a count.
pub fn is_balanced(table: Table, witness: Witness) -> bool
    requires { table.n ≤ 8 }
    ensures { result ≡ balances (function_of table) (count_of witness.counts) }
{
    let trues = side_sums(table, true, &witness.counts);
    let falses = side_sums(table, false, &witness.counts);
    let cared = counts_cared(table, &witness.counts);
    if trues[0] == 0 {
        return false;
    }
    let n = table.n as usize;
    trues[..=n] == falses[..=n] && cared
}
