// A job: the state of the stepping machine on one table, made fresh and carried on.
ghost use Rattle.std.specs.Prelude.{◌≡◌, ◌≤◌, IfOk};
ghost use Rattle.job.specs.Calls.{job_checked, fresh_job, decided_job, carry_on, carried};

use correction::steps::step_table;
use machine::core_state::core_of;
use refusal::refusal::table_status;
use soundness::sound::{CAP, is_sound};
use stepping::decided::{CALL_BUDGET, decided_alone};
use stepping::start::fresh_state;
use stepping::stepping::{is_ended, run};
use types::refusal::Refusal;
use types::state::State;
use types::table::Table;

// A table with the state of the machine on it.
#[derive(Clone, Copy, PartialEq, Eq)]
pub struct Job {
    pub table: Table,
    pub state: State,
}

// What carrying a job on gives: whether the call was accepted, the job after it, and the corrections made in it. Kept a struct and not a
// `Result`: document 01 has a refused carry-on hand back the job as it came in, and 0 corrections (`carried`).
#[derive(Clone, Copy)]
pub struct Carried {
    pub status: Result<(), Refusal>,
    pub job: Job,
    pub made: u32,
}

// Returns whether the job can be taken by a call, or its refusal: 2, 3, 16, 9.
pub fn job_status(job: Job) -> Result<(), Refusal>
    ensures { result ≡ job_checked job }
{
    table_status(job.table)?;
    let state = job.state;
    if !is_sound(job.table, core_of(state), &state.counts) {
        return Err(Refusal::Unsound);
    }
    Ok(())
}

// Returns the job after a budget of corrections, or at its end. Refusals: 2, 3, 16, 9, 10, 11, which is asked of an open job alone.
// K never falls.
#[tactic(auto, using(crate::proofs::JobChecked::job_inputs, crate::proofs::JobChecked::job_sound, crate::proofs::Soundness::run_grows), unfolding(crate::specs::Machine::run))]
fn advanced(job: Job, budget: u32) -> Result<Job, Refusal>
    ensures value { result ≡ carry_on job budget }
    ensures grows { IfOk result (λ next. job.state.k ≤ next.state.k) }
{
    job_status(job)?;
    if budget == 0 || Job::CALL_BUDGET < budget {
        return Err(Refusal::Budget);
    }
    let state = job.state;
    if is_ended(state.stage) {
        return Ok(job);
    }
    if Job::CAP - budget < state.k {
        return Err(Refusal::Cap);
    }
    let table = job.table;
    let steps = step_table();
    Ok(Job {
        table,
        state: run(table, state, budget, &steps),
    })
}

impl Job {
    // The most corrections of a job.
    pub const CAP: u32 = CAP;

    // The most corrections of one call.
    pub const CALL_BUDGET: u32 = CALL_BUDGET;

    // Returns the fresh job of a table: open; found, where no row is cared for; or binate with the counts that
    // show it. Refusals: 2, 3, 16.
    #[tactic(auto, unfolding(crate::specs::Machine::fresh))]
    pub fn fresh(table: Table) -> Result<Job, Refusal>
        ensures { result ≡ fresh_job table }
    {
        table_status(table)?;
        Ok(Job {
            table,
            state: fresh_state(table),
        })
    }

    // Returns the job of a table after one carry-on of the whole call budget from its fresh job. Refusals: 2, 3, 16.
    #[tactic(auto, unfolding(crate::specs::Machine::fresh, crate::specs::Machine::run))]
    pub fn decided(table: Table) -> Result<Job, Refusal>
        ensures { result ≡ decided_job table }
    {
        table_status(table)?;
        Ok(Job {
            table,
            state: decided_alone(table),
        })
    }

    // Carries the job on by a budget of corrections, or to its end. Refusals: 2, 3, 16, 9, 10, 11; the job is then as it came in. An
    // ended job makes no correction.
    pub fn carry_on(self, budget: u32) -> Carried
        ensures { result ≡ carried self (carry_on self budget) }
    {
        match advanced(self, budget) {
            Ok(next) => Carried {
                status: Ok(()),
                job: next,
                made: next.state.k - self.state.k,
            },
            Err(refusal) => Carried {
                status: Err(refusal),
                job: self,
                made: 0,
            },
        }
    }
}
