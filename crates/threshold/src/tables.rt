// The calls on a table's inputs: their kinds, and Chow's parameters.
ghost use Rattle.std.specs.Prelude.{length};
ghost use Rattle.refusal.specs.Refusal.{and_then};
ghost use Rattle.writers.specs.Calls.{fitted, WroteBytes};
ghost use Rattle.results.specs.Result.{Returned};
ghost use Rattle.inputs.specs.Inputs.{asked_bytes};
ghost use Rattle.requests.specs.Taken.{table_read};
ghost use Rattle.threshold.specs.Interface.{kinds, chow};

use inputs::asked::{Asked, put_asked};
use receiving::record::read;
use records::record::Record;
use results::result::returned;
use types::refusal::Refusal;

// Writes what is asked of the table of a kind 1 or 5 record. Returns the length. Refusals: 1 to 9 and 16 as the record is read, 100 for another
// kind, 12.
#[tactic(auto, using(requests::proofs::TakenLaws::table_kept))]
fn on_table(asked: Asked, bytes: &[u8], out: &mut [u8]) -> Result<u32, Refusal>
    ensures { WroteBytes (and_then (table_read bytes.now) (λ t. fitted (length out.old) (asked_bytes asked t))) out.old result out.new }
{
    let Record::Table(table) = read(bytes)? else {
        return Err(Refusal::OtherKind);
    };
    put_asked(asked, table, out)
}

// Writes the kind of each input of a kind 1 or 5 record's table, a byte each: 0 idle, 1 rising, 2 falling, 3 binate; past n idle. Returns 8.
// Refusals: 1 to 9 and 16 as the record is read, 100 for another kind, 12.
pub fn threshold_kinds(bytes: &[u8], out: &mut [u8]) -> i64
    ensures { Returned (kinds bytes.now (length out.old)) out.old result out.new }
{
    returned(on_table(Asked::Kinds, bytes, out))
}

// Writes Chow's parameter q of each input of a kind 1 or 5 record's table as a signed number of two bytes, low byte first; past n 0. Returns 16.
// Refusals: 1 to 9 and 16 as the record is read, 100 for another kind, 12.
pub fn threshold_chow(bytes: &[u8], out: &mut [u8]) -> i64
    ensures { Returned (chow bytes.now (length out.old)) out.old result out.new }
{
    returned(on_table(Asked::Chow, bytes, out))
}
