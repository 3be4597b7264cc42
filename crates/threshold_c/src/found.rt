// What the job of a record has found within a budget, as numbers in lent arrays.
ghost use Rattle.std.specs.Prelude.{length};
ghost use Rattle.handed.specs.Handed.{HandedOver};
ghost use Rattle.findings.specs.Findings.{GateHanded};
ghost use Rattle.found_within.specs.Found.{find_gate, find_witness};

#[unsafe(no_mangle)]
pub extern "C" fn threshold_find_gate(
    bytes: &[u8],
    budget: u32,
    weights: &mut [i32],
    threshold: &mut i32,
    made: &mut u32,
) -> i64
    ensures { GateHanded (find_gate bytes.now budget (length weights.old)) weights.old threshold.old made.old
        result weights.new threshold.new made.new }
{
    threshold::found::threshold_find_gate(bytes, budget, weights, threshold, made)
}

#[unsafe(no_mangle)]
pub extern "C" fn threshold_find_witness(
    bytes: &[u8],
    budget: u32,
    counts: &mut [u32],
    made: &mut u32,
) -> i64
    ensures { HandedOver (find_witness bytes.now budget (length counts.old)) counts.old made.old
        result counts.new made.new }
{
    threshold::found::threshold_find_witness(bytes, budget, counts, made)
}
