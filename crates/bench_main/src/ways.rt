// The ways in which the fresh job of a table is carried on by 100,000 corrections or to its end: 1 in one call, 2 in calls of 64, and 3
// in calls of 64 with the job saved and read back after each that leaves it open.
ghost use Rattle.std.specs.Prelude.{◌<◌, ◌≤◌};

use job::job::Job;
use receiving::record::read;
use records::record::Record;
use testing::make;
use testing::parts::first_bytes;
use types::stage::Stage;
use types::table::Table;
use writers::write::save;

// The number of the last way.
pub const LAST: u8 = 3;

// The most corrections of a small call.
const SMALL_BUDGET: u32 = 64;

// The room that a saved job needs at most, and a little more.
const SAVE_ROOM: usize = 1300;

// The stage and K of a job, the calls of carry-on that it took, and the bytes that it was saved in.
#[derive(Clone, Copy)]
pub struct Work {
    pub stage: Stage,
    pub k: u32,
    pub calls: u64,
    pub bytes: u64,
}

// A job that was saved and read back, and the bytes that it took.
#[derive(Clone, Copy)]
struct Saved {
    job: Job,
    bytes: u64,
}

// Whether a job is open.
fn is_open(job: Job) -> bool {
    job.state.stage == Stage::Open
}

// Returns the budget of a small call, of what is left.
fn small_budget(left: u32) -> u32
    requires { 0 < left }
    ensures { (0 < result) × (result ≤ left) }
{
    if left < SMALL_BUDGET {
        return left;
    }
    SMALL_BUDGET
}

// Saves a job and reads it back. A job that cannot be saved stays as it is.
fn saved_and_read(job: Job, out: &mut [u8]) -> Saved {
    let Ok(length) = save(job, out) else {
        return Saved { job, bytes: 0 };
    };
    let Ok(Record::Job(job)) = read(first_bytes(out, length)) else {
        return Saved { job, bytes: 0 };
    };
    Saved {
        job,
        bytes: length as u64,
    }
}

// Carries a job on in one call.
fn in_one_call(job: Job) -> Work {
    let carried = job.carry_on(Job::CALL_BUDGET);
    let state = carried.job.state;
    Work {
        stage: state.stage,
        k: state.k,
        calls: 1,
        bytes: 0,
    }
}

// Carries a job on in small calls, with the job saved and read back between them or not.
fn in_small_calls(fresh: Job, is_saved: bool) -> Work {
    let mut out = [0u8; SAVE_ROOM];
    let mut job = fresh;
    let mut left = Job::CALL_BUDGET;
    let mut calls: u64 = 0;
    let mut bytes: u64 = 0;
    // kept: a call may end the job, and the last budget is what is left
    while 0 < left && is_open(job) {
        let budget = small_budget(left);
        let carried = job.carry_on(budget);
        job = carried.job;
        left = left - budget;
        calls = calls.wrapping_add(1);
        if is_saved && is_open(job) {
            let saved = saved_and_read(job, &mut out);
            job = saved.job;
            bytes = bytes.wrapping_add(saved.bytes);
        }
    }
    Work {
        stage: job.state.stage,
        k: job.state.k,
        calls,
        bytes,
    }
}

// Carries the fresh job of a table that was read on in a way; of one that is refused, which no reading gives, the job with all numbers 0.
pub fn carried_on(way: u8, table: Table) -> Work {
    let fresh = Job::fresh(table).unwrap_or(make::no_job(table));
    if way == 1 {
        in_one_call(fresh)
    } else {
        in_small_calls(fresh, way == LAST)
    }
}
