// What the job of a record has found within a budget, as numbers in lent arrays.
ghost use Rattle.std.specs.Prelude.{length};
ghost use Rattle.handed.specs.Handed.{HandedOver};
ghost use Rattle.findings.specs.Findings.{GateHanded};
ghost use Rattle.found_within.specs.Found.{find_gate, find_witness};

use found_within::found::{find_gate, find_witness};
use results::result::returned;

// Carries the fresh job of a kind 1 or 5 record's table, or the job of a kind 4 or 6 record, on by a budget. If it has found a gate, writes its
// weights, from input 1 on, sets `threshold` to T and `made` to the corrections made, and returns n. Refusals: 1 to 9 and 16 as the record is
// read, 100 for another kind, 10, 11, 105, 12.
pub fn threshold_find_gate(
    bytes: &[u8],
    budget: u32,
    weights: &mut [i32],
    threshold: &mut i32,
    made: &mut u32,
) -> i64
    ensures { GateHanded (find_gate bytes.now budget (length weights.old)) weights.old threshold.old made.old
        result weights.new threshold.new made.new }
{
    returned(find_gate(bytes, budget, weights, threshold, made))
}

// The same for a witness: if the job has ended with one, writes the count of each row, from row 0 on, sets `made`, and returns the number of
// rows. Refusals: those of `threshold_find_gate`.
pub fn threshold_find_witness(bytes: &[u8], budget: u32, counts: &mut [u32], made: &mut u32) -> i64
    ensures { HandedOver (find_witness bytes.now budget (length counts.old)) counts.old made.old
        result counts.new made.new }
{
    returned(find_witness(bytes, budget, counts, made))
}
