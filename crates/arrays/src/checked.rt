// A gate and a witness from lent numbers, checked against a table.
ghost use Rattle.std.specs.Prelude.{◌≡◌, ◌≤◌};
ghost use Rattle.arrays.specs.Arrays.{check_gate_with, check_witness_with};

use crate::made::{gate_with, witness_with};
use cell::checker::{check_gate, check_witness};
use results::result::yes_or_no;
use table::table::row_count;
use types::refusal::Refusal;
use types::table::Table;

// Returns 1 if the gate of these numbers agrees with a table on every row that is cared for, and 0 if not. Refusals: 104, then the checker's.
pub fn check_gate_with(table: Table, weights: &[i32], threshold: i32) -> Result<u32, Refusal>
    requires { table.n ≤ 8 }
    ensures { result ≡ check_gate_with table weights.now threshold }
{
    if weights.len() != table.n as usize {
        return Err(Refusal::Numbers);
    }
    yes_or_no(check_gate(table, gate_with(table, weights, threshold)))
}

// Returns 1 if these counts balance against a table, and 0 if not. Refusals: 104, then the checker's.
pub fn check_witness_with(table: Table, counts: &[u32]) -> Result<u32, Refusal>
    requires { table.n ≤ 8 }
    ensures { result ≡ check_witness_with table counts.now }
{
    if counts.len() != row_count(table.n) {
        return Err(Refusal::Numbers);
    }
    yes_or_no(check_witness(table, witness_with(counts)))
}
