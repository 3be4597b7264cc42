// Gates and witnesses as numbers in lent arrays, from a record and into one.
ghost use Rattle.std.specs.Prelude.{length};
ghost use Rattle.results.specs.Result.{Returned};
ghost use Rattle.arrays.specs.Arrays.{GatePut};
ghost use Rattle.requests.specs.Requests.{gate_taken, counts_taken, gate_record, witness_record};

use requests::given::{gate_record, witness_record};
use requests::taken::{gate_numbers, witness_numbers};
use results::result::returned;

// Writes the weights of a kind 2 record's gate, from input 1 on, and sets `threshold` to T. Returns n. Refusals: 1 to 9 and 16 as the record is
// read, 100 for another kind, 12.
pub fn threshold_gate(bytes: &[u8], weights: &mut [i32], threshold: &mut i32) -> i64
    ensures { GatePut (gate_taken bytes.now (length weights.old)) weights.old threshold.old result weights.new threshold.new }
{
    returned(gate_numbers(bytes, weights, threshold))
}

// Writes the count of each row of a kind 3 record's witness, from row 0 on. Returns the number of rows. Refusals: 1 to 9 and 16 as the record is
// read, 100 for another kind, 12.
pub fn threshold_witness(bytes: &[u8], counts: &mut [u32]) -> i64
    ensures { Returned (counts_taken bytes.now (length counts.old)) counts.old result counts.new }
{
    returned(witness_numbers(bytes, counts))
}

// Writes a kind 1 or 5 record's table with the gate of these numbers, kind 2. Returns the length. Refusals: 1 to 9 and 16 as the record is read,
// 100 for another kind, 104, 16 of kind 5, 7, 12.
pub fn threshold_from_gate(bytes: &[u8], weights: &[i32], threshold: i32, out: &mut [u8]) -> i64
    ensures { Returned (gate_record bytes.now weights.now threshold (length out.old)) out.old result out.new }
{
    returned(gate_record(bytes, weights, threshold, out))
}

// Writes a kind 1 or 5 record's table with the witness of these counts, kind 3. Returns the length. Refusals: 1 to 9 and 16 as the record is
// read, 100 for another kind, 104, 16 of kind 5, 8, 12.
pub fn threshold_from_witness(bytes: &[u8], counts: &[u32], out: &mut [u8]) -> i64
    ensures { Returned (witness_record bytes.now counts.now (length out.old)) out.old result out.new }
{
    returned(witness_record(bytes, counts, out))
}
