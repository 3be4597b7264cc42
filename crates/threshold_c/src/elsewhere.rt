// Tables as they are written elsewhere, as hex digits and as words of 64 rows, with care words or without.
ghost use Rattle.std.specs.Prelude.{length};
ghost use Rattle.results.specs.Result.{Returned};
ghost use Rattle.words.specs.Words.{from_words, from_cares};
ghost use Rattle.digits.specs.Digits.{from_hex};

#[unsafe(no_mangle)]
pub extern "C" fn threshold_from_hex(inputs: u32, digits: &[u8], out: &mut [u8]) -> i64
    ensures { Returned (from_hex inputs digits.now (length out.old)) out.old result out.new }
{
    threshold::elsewhere::threshold_from_hex(inputs, digits, out)
}

#[unsafe(no_mangle)]
pub extern "C" fn threshold_from_words(inputs: u32, words: &[u64], out: &mut [u8]) -> i64
    ensures { Returned (from_words inputs words.now (length out.old)) out.old result out.new }
{
    threshold::elsewhere::threshold_from_words(inputs, words, out)
}

#[unsafe(no_mangle)]
pub extern "C" fn threshold_from_cares(
    inputs: u32,
    words: &[u64],
    cares: &[u64],
    out: &mut [u8],
) -> i64
    ensures { Returned (from_cares inputs words.now cares.now (length out.old)) out.old result out.new }
{
    threshold::elsewhere::threshold_from_cares(inputs, words, cares, out)
}
