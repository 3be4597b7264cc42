// A table decided and a job carried on, with what is handed back: the bytes of what the job has come to, and the corrections made.
ghost use Rattle.std.specs.Prelude.{[], length};
ghost use Rattle.refusal.specs.Refusal.{NoneBroken};
ghost use Rattle.refusal.specs.TableRules.{table_rules};
ghost use Rattle.job.specs.Machine.{fresh};
ghost use Rattle.job.specs.Calls.{job_rules};
ghost use Rattle.writers.specs.Calls.{WroteBytes};
ghost use Rattle.outcome.specs.Outcome.{job_of, outcome_written};
ghost use Rattle.handed.specs.Handed.{with_made, HandedBack, decided_back, carried_back};

use job::job::Job;
use outcome::outcome::write_outcome;
use results::result::short_length;
use stepping::decided::decided_alone;
use stepping::start::fresh_state;
use types::refusal::Refusal;
use types::state::State;
use types::table::Table;

// Writes what a job, a table with a state, has come to, and sets `made` to the corrections that a call has made. Returns the length. Refusals:
// 16, 12.
pub fn put_outcome(
    table: Table,
    state: State,
    corrections: u32,
    out: &mut [u8],
    made: &mut u32,
) -> Result<u32, Refusal>
    requires { NoneBroken (job_rules (job_of table state) []) }
    ensures { HandedBack (with_made corrections (outcome_written (length out.old) (job_of table state)))
        out.old made.old result out.new made.new }
{
    let length = short_length(write_outcome(table, state, out))?;
    *made = corrections;
    Ok(length)
}

// Decides a table: writes its gate, its witness, or the job that is open after 100,000 corrections, and sets `made` to the corrections made.
// Returns the length. Refusals: 16 of a gate or a witness where a row is not cared for; 12.
pub fn decide_table(table: Table, out: &mut [u8], made: &mut u32) -> Result<u32, Refusal>
    requires { NoneBroken (table_rules table []) }
    ensures { HandedBack (decided_back (length out.old) table) out.old made.old result out.new made.new }
{
    let state = decided_alone(table);
    put_outcome(table, state, state.k, out, made)
}

// Writes what the fresh job of a table has come to: the open job, or the witness of a table with a binate input. Returns the length. Refusals:
// 16 of a job that has ended where a row is not cared for; 12.
pub fn fresh_job(table: Table, out: &mut [u8]) -> Result<u32, Refusal>
    requires { NoneBroken (table_rules table []) }
    ensures { WroteBytes (outcome_written (length out.old) (fresh table)) out.old result out.new }
{
    short_length(write_outcome(table, fresh_state(table), out))
}

// Carries a job on by a budget; writes what it has come to and sets `made`, as `decide_table` does. Returns the length. Refusals: those of
// the carry-on, 16, 12.
pub fn carry_job(job: Job, budget: u32, out: &mut [u8], made: &mut u32) -> Result<u32, Refusal>
    ensures { HandedBack (carried_back budget (length out.old) job) out.old made.old result out.new made.new }
{
    let carried = job.carry_on(budget);
    carried.status?;
    let next = carried.job;
    put_outcome(next.table, next.state, carried.made, out, made)
}
