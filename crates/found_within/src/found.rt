// What the job of a record has found within a budget: the fresh job of a table, or an open job.
ghost use Rattle.std.specs.Prelude.{◌≡◌, ◌≤◌, length};
ghost use Rattle.job.specs.Machine.{fresh};
ghost use Rattle.handed.specs.Handed.{HandedBack};
ghost use Rattle.findings.specs.Findings.{GateBack};
ghost use Rattle.found_within.specs.Found.{find_gate, find_witness};

use findings::carried::{counts_after, gate_after};
use job::job::Job;
use receiving::record::read;
use records::record::Record;
use stepping::start::fresh_state;
use types::refusal::Refusal;
use types::table::Table;

// Returns the fresh job of a table.
#[tactic(auto, unfolding(job::specs::Machine::fresh))]
fn fresh_of(table: Table) -> Job
    requires { table.n ≤ 8 }
    ensures { result ≡ fresh table }
{
    Job {
        table,
        state: fresh_state(table),
    }
}

// Carries the fresh job of a table's record, or a record's open job, on by a budget; if it has found a gate, writes the weights of its inputs,
// sets the threshold, and `made` to the corrections made. Returns n. Refusals: 1 to 9 and 16 as the record is read, 100 for another kind than
// 1, 4, 5 and 6, 10, 11, 105, 12.
#[tactic(auto, using(requests::proofs::TakenLaws::table_few))]
pub fn find_gate(
    bytes: &[u8],
    budget: u32,
    weights: &mut [i32],
    threshold: &mut i32,
    made: &mut u32,
) -> Result<u32, Refusal>
    ensures { GateBack (find_gate bytes.now budget (length weights.old)) weights.old threshold.old made.old
        result weights.new threshold.new made.new }
{
    match read(bytes)? {
        Record::Table(table) => gate_after(fresh_of(table), budget, weights, threshold, made),
        Record::Job(job) => gate_after(job, budget, weights, threshold, made),
        Record::Gate(_, _) => Err(Refusal::OtherKind), // it has no job
        Record::Witness(_, _) => Err(Refusal::OtherKind),
    }
}

// The same for a witness: if the job has ended with one, writes the count of each row and sets `made`. Returns the number of rows. Refusals:
// those of `find_gate`.
#[tactic(auto, using(requests::proofs::TakenLaws::table_few))]
pub fn find_witness(
    bytes: &[u8],
    budget: u32,
    counts: &mut [u32],
    made: &mut u32,
) -> Result<u32, Refusal>
    ensures { HandedBack (find_witness bytes.now budget (length counts.old)) counts.old made.old
        result counts.new made.new }
{
    match read(bytes)? {
        Record::Table(table) => counts_after(fresh_of(table), budget, counts, made),
        Record::Job(job) => counts_after(job, budget, counts, made),
        Record::Gate(_, _) => Err(Refusal::OtherKind), // it has none
        Record::Witness(_, _) => Err(Refusal::OtherKind),
    }
}
