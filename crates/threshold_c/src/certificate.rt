// A record looked at: its kind, whether its gate or witness holds, and the value of its table or gate on a row.
ghost use Rattle.std.specs.Prelude.{◌≡◌};
ghost use Rattle.results.specs.Result.{as_result};
ghost use Rattle.threshold.specs.Interface.{check, kind, value_on};

#[unsafe(no_mangle)]
pub extern "C" fn threshold_check(bytes: &[u8]) -> i64
    ensures { result ≡ as_result (check bytes.now) }
{
    threshold::certificate::threshold_check(bytes)
}

#[unsafe(no_mangle)]
pub extern "C" fn threshold_kind(bytes: &[u8]) -> i64
    ensures { result ≡ as_result (kind bytes.now) }
{
    threshold::certificate::threshold_kind(bytes)
}

#[unsafe(no_mangle)]
pub extern "C" fn threshold_value(bytes: &[u8], row: u32) -> i64
    ensures { result ≡ as_result (value_on bytes.now row) }
{
    threshold::certificate::threshold_value(bytes, row)
}
