// The calls on jobs: a table is decided, or its fresh job made; an open job is carried on, and asked how far it has come.
ghost use Rattle.std.specs.Prelude.{◌≡◌, length};
ghost use Rattle.results.specs.Result.{as_result, Returned};
ghost use Rattle.handed.specs.Handed.{HandedBack, HandedOver};
ghost use Rattle.requests.specs.Requests.{fresh_record, corrections};
ghost use Rattle.threshold.specs.Interface.{decide, carried_on};

use handed::handed::{carry_job, decide_table};
use receiving::record::read;
use records::record::Record;
use requests::jobs::{fresh_record, job_corrections};
use results::result::returned;
use types::refusal::Refusal;

// Decides the table of a record, as `threshold_decide` says.
#[tactic(auto, using(requests::proofs::TakenLaws::table_kept))]
fn decide(bytes: &[u8], out: &mut [u8], made: &mut u32) -> Result<u32, Refusal>
    ensures { HandedBack (decide bytes.now (length out.old)) out.old made.old result out.new made.new }
{
    let Record::Table(table) = read(bytes)? else {
        return Err(Refusal::OtherKind);
    };
    decide_table(table, out, made)
}

// Carries the job of a record on, as `threshold_carry_on` says.
#[tactic(auto, unfolding(crate::specs::Interface::carried_on))]
fn carried_on(bytes: &[u8], budget: u32, out: &mut [u8], made: &mut u32) -> Result<u32, Refusal>
    ensures { HandedBack (carried_on bytes.now budget (length out.old)) out.old made.old result out.new made.new }
{
    let Record::Job(job) = read(bytes)? else {
        return Err(Refusal::OtherKind);
    };
    carry_job(job, budget, out, made)
}

// Decides the table of a kind 1 or 5 record: writes its gate (kind 2), its witness (kind 3), or the job that is open after 100,000 corrections
// (kind 4 or 6), and sets `made` to the corrections made. Returns the length. Refusals: 1 to 9 and 16 as the record is read, 100 for another
// kind, 16 of a gate or a witness where a row is not cared for, 12.
pub fn threshold_decide(bytes: &[u8], out: &mut [u8], made: &mut u32) -> i64
    ensures { HandedOver (decide bytes.now (length out.old)) out.old made.old result out.new made.new }
{
    returned(decide(bytes, out, made))
}

// Carries the open job of a kind 4 or 6 record on by a budget; writes what it has come to and sets `made`, as `threshold_decide` does. Returns
// the length. Refusals: 1 to 9 and 16 as the record is read, 100 for another kind, 10, 11, 16 as there, 12.
pub fn threshold_carry_on(bytes: &[u8], budget: u32, out: &mut [u8], made: &mut u32) -> i64
    ensures { HandedOver (carried_on bytes.now budget (length out.old)) out.old made.old result out.new made.new }
{
    returned(carried_on(bytes, budget, out, made))
}

// Writes the fresh job of a kind 1 or 5 record's table, kind 4 or 6, or the witness that it has ended with, kind 3. Returns the length. Refusals:
// 1 to 9 and 16 as the record is read, 100 for another kind, 16 of a job that has ended where a row is not cared for, 12.
pub fn threshold_fresh(bytes: &[u8], out: &mut [u8]) -> i64
    ensures { Returned (fresh_record bytes.now (length out.old)) out.old result out.new }
{
    returned(fresh_record(bytes, out))
}

// Returns the corrections that a kind 4 or 6 record's job has made, K. Refusals: 1 to 9 and 16 as the record is read, 100 for another kind.
pub fn threshold_corrections(bytes: &[u8]) -> i64
    ensures { result ≡ as_result (corrections bytes.now) }
{
    returned(job_corrections(bytes))
}
