// The fresh job of a record's table, and how far a record's job has come.
ghost use Rattle.std.specs.Prelude.{◌≡◌, length};
ghost use Rattle.writers.specs.Calls.{WroteBytes};
ghost use Rattle.requests.specs.Requests.{fresh_record, corrections};

use handed::handed::fresh_job;
use receiving::record::read;
use records::record::Record;
use types::refusal::Refusal;

// Writes the fresh job of a record's table, kind 4 or 6, or the witness that it has ended with, kind 3. Returns the length. Refusals: 1 to 9
// and 16 as the record is read, 100 for another kind than 1 and 5, 16 of a job that has ended where a row is not cared for, 12.
#[tactic(auto, using(crate::proofs::TakenLaws::table_kept))]
pub fn fresh_record(bytes: &[u8], out: &mut [u8]) -> Result<u32, Refusal>
    ensures { WroteBytes (fresh_record bytes.now (length out.old)) out.old result out.new }
{
    let Record::Table(table) = read(bytes)? else {
        return Err(Refusal::OtherKind);
    };
    fresh_job(table, out)
}

// Returns the corrections that a record's job has made. Refusals: 1 to 9 and 16 as the record is read, 100 for another kind than 4 and 6.
pub fn job_corrections(bytes: &[u8]) -> Result<u32, Refusal>
    ensures { result ≡ corrections bytes.now }
{
    let Record::Job(job) = read(bytes)? else {
        return Err(Refusal::OtherKind);
    };
    Ok(job.state.k)
}
