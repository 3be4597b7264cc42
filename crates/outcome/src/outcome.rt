// What a job has come to, written as a record.
ghost use Rattle.std.specs.Prelude.{◌≡◌, [], length};
ghost use Rattle.refusal.specs.Refusal.{NoneBroken};
ghost use Rattle.job.specs.Calls.{job_rules};
ghost use Rattle.writers.specs.Calls.{WroteBytes};
ghost use Rattle.outcome.specs.Outcome.{job_of, outcome_written};

use job::job::Job;
use machine::vector::vector_gate;
use types::refusal::Refusal;
use types::stage::Stage;
use types::state::State;
use types::table::Table;
use types::witness::Witness;
use writers::write::{save, write_gate, write_witness};

// Returns the counts of a state as a witness.
pub fn witness_of(state: State) -> Witness
    ensures { result ≡ record { counts = state.counts } }
{
    let counts = state.counts;
    Witness { counts }
}

// Writes what a job, a table with a state, has come to: a found one's table and gate, an otherwise ended one's table and witness, or the
// open job. Refusals: 16 of an ended one whose table has a row that is not cared for; 12.
pub fn write_outcome(table: Table, state: State, out: &mut [u8]) -> Result<usize, Refusal>
    requires { NoneBroken (job_rules (job_of table state) []) }
    ensures { WroteBytes (outcome_written (length out.old) (job_of table state)) out.old result out.new }
{
    match state.stage {
        Stage::Open => save(Job { table, state }, out),
        Stage::Found => write_gate(table, vector_gate(table.n, state.v), out),
        Stage::Looped => write_witness(table, witness_of(state), out),
        Stage::Binate => write_witness(table, witness_of(state), out),
    }
}
