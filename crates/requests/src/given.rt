// A record of a table's record with the numbers of a gate or a witness.
ghost use Rattle.std.specs.Prelude.{length};
ghost use Rattle.writers.specs.Calls.{WroteBytes};
ghost use Rattle.requests.specs.Requests.{gate_record, witness_record};

use arrays::given::{from_gate, from_witness};
use receiving::record::read;
use records::record::Record;
use types::refusal::Refusal;

// Writes a table's record with the gate of these numbers, kind 2. Returns the length. Refusals: 1 to 9 and 16 as the record is read, 100 for
// another kind than 1 and 5, 104, 16, 7, 12.
#[tactic(auto, using(crate::proofs::TakenLaws::table_few))]
pub fn gate_record(
    bytes: &[u8],
    weights: &[i32],
    threshold: i32,
    out: &mut [u8],
) -> Result<u32, Refusal>
    ensures { WroteBytes (gate_record bytes.now weights.now threshold (length out.old)) out.old result out.new }
{
    let Record::Table(table) = read(bytes)? else {
        return Err(Refusal::OtherKind);
    };
    from_gate(table, weights, threshold, out)
}

// Writes a table's record with the witness of these counts, kind 3. Returns the length. Refusals: 1 to 9 and 16 as the record is read, 100 for
// another kind than 1 and 5, 104, 16, 8, 12.
#[tactic(auto, using(crate::proofs::TakenLaws::table_few))]
pub fn witness_record(bytes: &[u8], counts: &[u32], out: &mut [u8]) -> Result<u32, Refusal>
    ensures { WroteBytes (witness_record bytes.now counts.now (length out.old)) out.old result out.new }
{
    let Record::Table(table) = read(bytes)? else {
        return Err(Refusal::OtherKind);
    };
    from_witness(table, counts, out)
}
