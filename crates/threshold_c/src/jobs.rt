// The calls on jobs: a table is decided, or its fresh job made; an open job is carried on, and asked how far it has come.
ghost use Rattle.std.specs.Prelude.{◌≡◌, length};
ghost use Rattle.results.specs.Result.{as_result, Returned};
ghost use Rattle.handed.specs.Handed.{HandedOver};
ghost use Rattle.requests.specs.Requests.{fresh_record, corrections};
ghost use Rattle.threshold.specs.Interface.{decide, carried_on};

#[unsafe(no_mangle)]
pub extern "C" fn threshold_decide(bytes: &[u8], out: &mut [u8], made: &mut u32) -> i64
    ensures { HandedOver (decide bytes.now (length out.old)) out.old made.old result out.new made.new }
{
    threshold::jobs::threshold_decide(bytes, out, made)
}

#[unsafe(no_mangle)]
pub extern "C" fn threshold_carry_on(
    bytes: &[u8],
    budget: u32,
    out: &mut [u8],
    made: &mut u32,
) -> i64
    ensures { HandedOver (carried_on bytes.now budget (length out.old)) out.old made.old result out.new made.new }
{
    threshold::jobs::threshold_carry_on(bytes, budget, out, made)
}

#[unsafe(no_mangle)]
pub extern "C" fn threshold_fresh(bytes: &[u8], out: &mut [u8]) -> i64
    ensures { Returned (fresh_record bytes.now (length out.old)) out.old result out.new }
{
    threshold::jobs::threshold_fresh(bytes, out)
}

#[unsafe(no_mangle)]
pub extern "C" fn threshold_corrections(bytes: &[u8]) -> i64
    ensures { result ≡ as_result (corrections bytes.now) }
{
    threshold::jobs::threshold_corrections(bytes)
}
