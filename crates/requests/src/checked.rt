// The numbers of a gate or a witness, checked against a record's table.
ghost use Rattle.std.specs.Prelude.{◌≡◌};
ghost use Rattle.requests.specs.Requests.{gate_holds, witness_holds};

use arrays::checked::{check_gate_with, check_witness_with};
use receiving::record::read;
use records::record::Record;
use types::refusal::Refusal;

// Returns 1 if the gate of these numbers agrees with a record's table on every row that is cared for, and 0 if not. Refusals: 1 to 9 and 16 as
// the record is read, 100 for another kind than 1 and 5, 104, 7.
#[tactic(auto, using(crate::proofs::TakenLaws::table_few))]
pub fn gate_holds(bytes: &[u8], weights: &[i32], threshold: i32) -> Result<u32, Refusal>
    ensures { result ≡ gate_holds bytes.now weights.now threshold }
{
    match read(bytes)? {
        Record::Table(table) => check_gate_with(table, weights, threshold),
        _ => Err(Refusal::OtherKind),
    }
}

// Returns 1 if these counts balance against a record's table, and 0 if not. Refusals: 1 to 9 and 16 as the record is read, 100 for another kind
// than 1 and 5, 104, 8.
#[tactic(auto, using(crate::proofs::TakenLaws::table_few))]
pub fn witness_holds(bytes: &[u8], counts: &[u32]) -> Result<u32, Refusal>
    ensures { result ≡ witness_holds bytes.now counts.now }
{
    match read(bytes)? {
        Record::Table(table) => check_witness_with(table, counts),
        _ => Err(Refusal::OtherKind),
    }
}
