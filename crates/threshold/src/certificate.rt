// A record looked at: its kind, whether its gate or witness holds, and the value of its table or gate on a row.
ghost use Rattle.std.specs.Prelude.{◌≡◌};
ghost use Rattle.results.specs.Result.{as_result};
ghost use Rattle.threshold.specs.Interface.{check, kind, value_on};

use certificates::certificate::{check_read, kind_read, value_read};
use receiving::record::read;
use results::result::returned;
use types::refusal::Refusal;

// Whether the gate or witness of a record holds, as `threshold_check` says.
#[tactic(auto, unfolding(crate::specs::Interface::check))]
fn check(bytes: &[u8]) -> Result<u32, Refusal>
    ensures { result ≡ check bytes.now }
{
    check_read(read(bytes))
}

// The kind of a record, as `threshold_kind` says.
#[tactic(auto, using(requests::proofs::TakenLaws::read_kept), unfolding(crate::specs::Interface::kind))]
fn kind(bytes: &[u8]) -> Result<u32, Refusal>
    ensures { result ≡ kind bytes.now }
{
    kind_read(read(bytes))
}

// The value on a row, as `threshold_value` says.
#[tactic(auto, unfolding(crate::specs::Interface::value_on))]
fn value_on(bytes: &[u8], row: u32) -> Result<u32, Refusal>
    ensures { result ≡ value_on bytes.now row }
{
    value_read(read(bytes), row)
}

// Returns 1 if the gate of a kind 2 record realises its table, or the witness of a kind 3 record balances, and 0 if not. Refusals: 1 to 9 and 16
// as the record is read, 100 for another kind.
pub fn threshold_check(bytes: &[u8]) -> i64
    ensures { result ≡ as_result (check bytes.now) }
{
    returned(check(bytes))
}

// Returns the kind of a record that is whole and right, 1 to 6. Refusals: 1 to 9 and 16 as the record is read.
pub fn threshold_kind(bytes: &[u8]) -> i64
    ensures { result ≡ as_result (kind bytes.now) }
{
    returned(kind(bytes))
}

// Returns the value of a kind 1 or 5 record's table on a row, or of a kind 2 record's gate: 0 or 1. Refusals: 1 to 9 and 16 as the record is
// read, 100 for another kind, 14.
pub fn threshold_value(bytes: &[u8], row: u32) -> i64
    ensures { result ≡ as_result (value_on bytes.now row) }
{
    returned(value_on(bytes, row))
}
