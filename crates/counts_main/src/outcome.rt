// What comes of the job of one table: made fresh, carried on once by the most that a call takes, shown, and what is shown checked.
ghost use Rattle.std.specs.Prelude.{◌≤◌, ◌<◌};

use cell::checker::{check_gate, check_witness};
use job::job::Job;
use types::stage::Stage;
use types::table::Table;
use view::shown::{Verdict, show};

// The stages by number.
pub const OPEN: usize = 0;

pub const FOUND: usize = 1;

pub const LOOPED: usize = 2;

pub const BINATE: usize = 3;

// The stage's number, the corrections made, and 1 if no call refused the job and the checker said yes to what it shows, else 0.
#[derive(Clone, Copy)]
pub struct Outcome {
    pub stage: usize,
    pub corrections: u64,
    pub accepted: u64,
}

// Returns what comes of the table.
pub fn run(table: Table) -> Outcome
    ensures { (result.stage < 4) × (result.corrections < 4294967296) × (result.accepted ≤ 1) }
{
    let Ok(job) = Job::fresh(table) else {
        return Outcome {
            stage: OPEN,
            corrections: 0,
            accepted: 0,
        };
    };
    let carried = job.carry_on(Job::CALL_BUDGET);
    let ended = carried.job;
    let accepted = carried.status.is_ok() && is_accepted(ended);
    Outcome {
        stage: stage_number(ended.state.stage),
        corrections: ended.state.k as u64,
        accepted: one_if(accepted),
    }
}

// Returns 1 where a test holds, else 0.
pub fn one_if(test: bool) -> u64
    ensures { result ≤ 1 }
{
    if test { 1 } else { 0 }
}

// Returns the number of a stage.
fn stage_number(stage: Stage) -> usize
    ensures { result < 4 }
{
    match stage {
        Stage::Open => OPEN,
        Stage::Found => FOUND,
        Stage::Looped => LOOPED,
        Stage::Binate => BINATE,
    }
}

// Whether the job shows a gate or a witness to which the checker says yes.
fn is_accepted(job: Job) -> bool {
    match show(job) {
        Ok(Verdict::Gate(gate)) => check_gate(job.table, gate) == Ok(true),
        Ok(Verdict::Witness(witness)) => check_witness(job.table, witness) == Ok(true),
        Ok(Verdict::Open) => false,
        Err(_) => false,
    }
}
