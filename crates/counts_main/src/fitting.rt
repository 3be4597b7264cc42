// Whether a gate fits a partial table of up to three inputs, by the tables that gates have, beside what the table's job comes to.
ghost use Rattle.std.specs.Prelude.{◌≤◌};

use crate::outcome::one_if;
use crate::partial::Rows;
use crate::{outcome, partial};

// How many partial tables a gate fits, and of how many the job found one exactly if so.
#[derive(Clone, Copy)]
pub struct Fitted {
    pub fit: u64,
    pub alike: u64,
}

// Whether one of the tables that gates have has the values of the rows that are cared for.
fn fits(have: &[bool; 256], rows: Rows) -> bool {
    for table in 0..256 {
        if have[table] && (table as u8 ^ rows.values) & rows.cares == 0 {
            return true;
        }
    }
    false
}

// Compares the first so many partial tables of n inputs.
pub fn compare(n: u8, tables: u32, have: &[bool; 256]) -> Fitted
    requires { tables ≤ 65536 }
{
    let mut fit: u64 = 0;
    let mut alike: u64 = 0;
    for number in 0..tables {
        let rows = partial::rows_of(number);
        let ended = outcome::run(partial::table(n, rows));
        let is_fit = fits(have, rows);
        let is_found = ended.stage == outcome::FOUND;
        fit = fit + one_if(is_fit);
        alike = alike + one_if(is_found == is_fit);
    }
    Fitted { fit, alike }
}
