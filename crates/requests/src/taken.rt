// The numbers of a record's gate or witness, in lent arrays.
ghost use Rattle.std.specs.Prelude.{length};
ghost use Rattle.writers.specs.Calls.{WroteBytes};
ghost use Rattle.arrays.specs.Arrays.{PutGate};
ghost use Rattle.requests.specs.Requests.{gate_taken, counts_taken};

use arrays::taken::{put_counts, put_weights};
use receiving::record::read;
use records::record::Record;
use types::refusal::Refusal;

// Writes the weights of a kind 2 record's gate and sets the threshold. Returns n. Refusals: 1 to 9 and 16 as the record is read, 100 for
// another kind, 12.
#[tactic(auto, using(crate::proofs::TakenLaws::gate_few))]
pub fn gate_numbers(bytes: &[u8], weights: &mut [i32], threshold: &mut i32) -> Result<u32, Refusal>
    ensures { PutGate (gate_taken bytes.now (length weights.old)) weights.old threshold.old result weights.new threshold.new }
{
    let Record::Gate(_, gate) = read(bytes)? else {
        return Err(Refusal::OtherKind);
    };
    put_weights(gate, weights, threshold)
}

// Writes the count of each row of a kind 3 record's witness. Returns the number of rows. Refusals: 1 to 9 and 16 as the record is read, 100
// for another kind, 12.
#[tactic(auto, using(crate::proofs::TakenLaws::witness_few))]
pub fn witness_numbers(bytes: &[u8], counts: &mut [u32]) -> Result<u32, Refusal>
    ensures { WroteBytes (counts_taken bytes.now (length counts.old)) counts.old result counts.new }
{
    let Record::Witness(table, witness) = read(bytes)? else {
        return Err(Refusal::OtherKind);
    };
    put_counts(table, witness, counts)
}
