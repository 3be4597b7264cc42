// A job carried on in many small calls.
use job::job::Job;
use papers::show;
use std::io;
use testing::compare::same_job;
use testing::make;
use types::stage::Stage;
use types::table::Table;

// The most calls: with budgets 1 to 400 they make up to 80,200 corrections.
const CALLS: u32 = 400;

// A job after some calls, and the corrections made in all of them.
#[derive(Clone, Copy)]
struct Calls {
    job: Job,
    made: u64,
}

// Whether the job is open.
fn is_open(job: Job) -> bool {
    job.state.stage == Stage::Open
}

// Makes calls with budgets 1, 2, 3 and so on, until the job ends or the most calls are made.
fn small_calls(table: Table) -> Calls {
    let mut job = Job::fresh(table).unwrap_or(make::no_job(table));
    let mut made: u64 = 0;
    for budget in 1..CALLS + 1 {
        if !is_open(job) {
            break;
        }
        let carried = job.carry_on(budget);
        job = carried.job;
        made = made + carried.made as u64;
    }
    Calls { job, made }
}

// Prints whether small calls bring the table's job to the same end with as many corrections, or that they leave it open.
pub fn show_split(rt: &impl Print, job: Job) -> io::Result<()> {
    show::word(rt, b" split")?;
    let calls = small_calls(job.table);
    let end = calls.job;
    if is_open(end) {
        show::word(rt, b" open")
    } else {
        show::same(rt, calls.made == job.state.k as u64 && same_job(job, end))
    }
}
