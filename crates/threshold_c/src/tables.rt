// The calls on a table's inputs: their kinds, and Chow's parameters.
ghost use Rattle.std.specs.Prelude.{length};
ghost use Rattle.results.specs.Result.{Returned};
ghost use Rattle.threshold.specs.Interface.{kinds, chow};

#[unsafe(no_mangle)]
pub extern "C" fn threshold_kinds(bytes: &[u8], out: &mut [u8]) -> i64
    ensures { Returned (kinds bytes.now (length out.old)) out.old result out.new }
{
    threshold::tables::threshold_kinds(bytes, out)
}

#[unsafe(no_mangle)]
pub extern "C" fn threshold_chow(bytes: &[u8], out: &mut [u8]) -> i64
    ensures { Returned (chow bytes.now (length out.old)) out.old result out.new }
{
    threshold::tables::threshold_chow(bytes, out)
}
