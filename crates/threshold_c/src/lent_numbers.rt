// Gates and witnesses as numbers in lent arrays, from a record and into one.
ghost use Rattle.std.specs.Prelude.{length};
ghost use Rattle.results.specs.Result.{Returned};
ghost use Rattle.arrays.specs.Arrays.{GatePut};
ghost use Rattle.requests.specs.Requests.{gate_taken, counts_taken, gate_record, witness_record};

#[unsafe(no_mangle)]
pub extern "C" fn threshold_gate(bytes: &[u8], weights: &mut [i32], threshold: &mut i32) -> i64
    ensures { GatePut (gate_taken bytes.now (length weights.old)) weights.old threshold.old result weights.new threshold.new }
{
    threshold::lent_numbers::threshold_gate(bytes, weights, threshold)
}

#[unsafe(no_mangle)]
pub extern "C" fn threshold_witness(bytes: &[u8], counts: &mut [u32]) -> i64
    ensures { Returned (counts_taken bytes.now (length counts.old)) counts.old result counts.new }
{
    threshold::lent_numbers::threshold_witness(bytes, counts)
}

#[unsafe(no_mangle)]
pub extern "C" fn threshold_from_gate(
    bytes: &[u8],
    weights: &[i32],
    threshold: i32,
    out: &mut [u8],
) -> i64
    ensures { Returned (gate_record bytes.now weights.now threshold (length out.old)) out.old result out.new }
{
    threshold::lent_numbers::threshold_from_gate(bytes, weights, threshold, out)
}

#[unsafe(no_mangle)]
pub extern "C" fn threshold_from_witness(bytes: &[u8], counts: &[u32], out: &mut [u8]) -> i64
    ensures { Returned (witness_record bytes.now counts.now (length out.old)) out.old result out.new }
{
    threshold::lent_numbers::threshold_from_witness(bytes, counts, out)
}
