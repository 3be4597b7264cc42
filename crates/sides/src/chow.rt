// Chow's parameters.
ghost use Rattle.std.specs.Prelude.{◌≡◌, ◌≤◌, ◌<◌};
ghost use Rattle.numbers.specs.Tabulate.{tabulate};
ghost use Rattle.table.specs.Chow.{true_rows, chow_at, chow_of};

use crate::sums::side_sums;
use types::table::Table;

// Returns p of each input: the number of true rows in which it is true; p0 is that of all true rows.
fn true_rows(table: Table) -> [u64; 9]
    requires { table.n ≤ 8 }
    ensures { result ≡ tabulate 9 (true_rows table) }
{
    let ones = [1u32; 256];
    side_sums(table, true, &ones)
}

// Returns q of the input at a place: 2pi − p0, and 0 past n.
fn chow_at(table: Table, p: [u64; 9], place: usize) -> i32
    requires { (table.n ≤ 8) × (place < 8) × (p ≡ tabulate 9 (true_rows table)) }
    ensures { result ≡ chow_at table place }
{
    if (table.n as usize) <= place {
        return 0;
    }
    let with = p[place + 1] as i32;
    let all = p[0] as i32;
    2 * with - all
}

// Returns the q of all eight places.
pub fn all_chow(table: Table) -> [i32; 8]
    requires { table.n ≤ 8 }
    ensures { result ≡ chow_of table }
{
    let p = true_rows(table);
    let mut q = [0i32; 8];
    for (place, value) in q.iter_mut().enumerate() {
        *value = chow_at(table, p, place);
    }
    q
}
