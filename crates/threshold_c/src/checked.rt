// The numbers of a gate or a witness, checked against a record's table.
ghost use Rattle.std.specs.Prelude.{◌≡◌};
ghost use Rattle.results.specs.Result.{as_result};
ghost use Rattle.requests.specs.Requests.{gate_holds, witness_holds};

#[unsafe(no_mangle)]
pub extern "C" fn threshold_check_gate(bytes: &[u8], weights: &[i32], threshold: i32) -> i64
    ensures { result ≡ as_result (gate_holds bytes.now weights.now threshold) }
{
    threshold::checked::threshold_check_gate(bytes, weights, threshold)
}

#[unsafe(no_mangle)]
pub extern "C" fn threshold_check_witness(bytes: &[u8], counts: &[u32]) -> i64
    ensures { result ≡ as_result (witness_holds bytes.now counts.now) }
{
    threshold::checked::threshold_check_witness(bytes, counts)
}
