// One call of a list, and what the calls have come to.
use job::job::{Carried, Job};
use receiving::record::read;
use records::record::Record;
use testing::compare::same_job;
use testing::parts::{first_bytes, least};
use testing::tally;
use testing::tally::Tally;
use types::refusal::Refusal;
use writers::write::save;

// The job after some calls, the sum of the budgets that were accepted and of the corrections that were reported, and the numbers that
// each of the two calls gave.
#[derive(Clone, Copy)]
pub struct Calls {
    pub job: Job,
    pub budgets: u64,
    pub made: u64,
    pub carried: Tally,
    pub saved: Tally,
}

// What came of saving a job and reading it back: the number of a refusal or 0, the job, and whether a saved job was read as a job.
#[derive(Clone, Copy)]
struct Saved {
    number: u8,
    job: Job,
    is_read: bool,
}

// Returns no calls on a job.
pub fn none(job: Job) -> Calls {
    Calls {
        job,
        budgets: 0,
        made: 0,
        carried: tally::none(),
        saved: tally::none(),
    }
}

// Returns the number of a refusal, or 0.
fn number_of(status: Result<(), Refusal>) -> u8 {
    match status {
        Ok(()) => 0,
        Err(refusal) => refusal.number(),
    }
}

// Whether K has grown by the corrections that a carry-on reported, and a refusal left the job as it was.
fn is_right(before: Job, carried: Carried, number: u8) -> bool {
    let job = carried.job;
    let has_grown = before.state.k as u64 + carried.made as u64 == job.state.k as u64;
    has_grown && (number == 0 || same_job(before, job))
}

// Adds the corrections of a carry-on to the sums, and its budget where it was accepted.
fn with_sums(calls: Calls, budget: u32, made: u32, number: u8) -> Calls {
    let mut next = calls;
    next.made = next.made.wrapping_add(made as u64);
    if number == 0 {
        next.budgets = next.budgets.wrapping_add(budget as u64);
    }
    next
}

// Carries the job on.
pub fn carry_on(calls: Calls, budget: u32) -> Calls {
    let before = calls.job;
    let carried = before.carry_on(budget);
    let number = number_of(carried.status);
    let mut next = with_sums(calls, budget, carried.made, number);
    next.job = carried.job;
    next.carried = tally::count(next.carried, number, is_right(before, carried, number));
    next
}

// Reads a job back; of what is no job nothing is right.
fn read_back(bytes: &[u8], before: Job) -> Saved {
    match read(bytes) {
        Ok(Record::Job(job)) => Saved {
            number: 0,
            job,
            is_read: true,
        },
        _ => Saved {
            number: 0,
            job: before,
            is_read: false,
        },
    }
}

// Saves a job into the first bytes of a buffer and, unless that is refused, reads the bytes that were written.
fn save_back(job: Job, out: &mut [u8], room: usize) -> Saved {
    let end = least(room, out.len());
    match save(job, &mut out[0..end]) {
        Ok(length) => read_back(first_bytes(out, length), job),
        Err(refusal) => Saved {
            number: refusal.number(),
            job,
            is_read: true,
        },
    }
}

// Saves the job and reads it back. The answer is right if the job is as it was.
pub fn save_and_read(calls: Calls, room: usize, fill: u8) -> Calls {
    let before = calls.job;
    let mut out = [fill; 1300];
    let saved = save_back(before, &mut out, room);
    let job = saved.job;
    let mut next = calls;
    next.job = job;
    next.saved = tally::count(
        next.saved,
        saved.number,
        saved.is_read && same_job(before, job),
    );
    next
}
