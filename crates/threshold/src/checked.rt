// The numbers of a gate or a witness, checked against a record's table.
ghost use Rattle.std.specs.Prelude.{◌≡◌};
ghost use Rattle.results.specs.Result.{as_result};
ghost use Rattle.requests.specs.Requests.{gate_holds, witness_holds};

use requests::checked::{gate_holds, witness_holds};
use results::result::returned;

// Returns 1 if the gate of these numbers agrees with a kind 1 or 5 record's table on every row that is cared for, and 0 if not. Refusals: 1 to 9
// and 16 as the record is read, 100 for another kind, 104, 7.
pub fn threshold_check_gate(bytes: &[u8], weights: &[i32], threshold: i32) -> i64
    ensures { result ≡ as_result (gate_holds bytes.now weights.now threshold) }
{
    returned(gate_holds(bytes, weights, threshold))
}

// Returns 1 if these counts balance against a kind 1 or 5 record's table, and 0 if not. Refusals: 1 to 9 and 16 as the record is read, 100 for
// another kind, 104, 8.
pub fn threshold_check_witness(bytes: &[u8], counts: &[u32]) -> i64
    ensures { result ≡ as_result (witness_holds bytes.now counts.now) }
{
    returned(witness_holds(bytes, counts))
}
