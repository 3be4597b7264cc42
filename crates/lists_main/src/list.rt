// A list of calls on one job. A line is in the form that `testing::make` reads: the letter N stands for the fresh job of its table, the
// row's place has the most of a buffer's length, and the budget's place the most of an ordinary budget.
use crate::calls;
use crate::calls::Calls;
use job::job::Job;
use papers::line::table_of;
use papers::show;
use papers::text::{first, word};
use std::io;
use testing::compare::same_job;
use testing::{make, stage, tally};

// How many calls a list has.
const CALLS: u32 = 300;

// Returns the next state of the generator, a number below 2^31.
fn after(state: u64) -> u64 {
    (1_103_515_245 * (state % 2_147_483_648) + 12_345) % 2_147_483_648
}

// Returns the job that a list starts with.
fn start(line: &[u8]) -> Job {
    if first(word(line, 3)) == b'N' {
        let table = table_of(line);
        return Job::fresh(table).unwrap_or(make::no_job(table));
    }
    make::job(line)
}

// Returns a number from 0 to the most, by an amount.
fn up_to(most: u32, amount: u64) -> u32 {
    (amount % (most as u64 + 1)) as u32
}

// Returns a budget: 0, one too large, the largest number, the most of an ordinary one, or an ordinary one.
fn budget(pick: u64, most: u32, amount: u64) -> u32 {
    if pick == 10 {
        return 0;
    }
    if pick == 11 {
        return Job::CALL_BUDGET + 1;
    }
    if pick == 12 {
        return u32::MAX;
    }
    if pick == 13 {
        return most;
    }
    up_to(most, amount)
}

// Makes a call: of 32 picks 10 save the job and read it back, and the others carry it on.
fn call(calls: Calls, pick: u64, amount: u64, line: &[u8]) -> Calls {
    if pick < 10 {
        let most = (make::row(line) % 1300) as u32;
        calls::save_and_read(calls, up_to(most, amount) as usize, pick as u8)
    } else {
        calls::carry_on(calls, budget(pick, make::budget(line), amount))
    }
}

// Makes the calls of a list.
fn calls_on(job: Job, line: &[u8]) -> Calls {
    let mut calls = calls::none(job);
    let mut state = line.len() as u64;
    for _ in 0..CALLS {
        let second = after(state);
        state = after(second);
        calls = call(calls, second / 65_536 % 32, state / 64, line);
    }
    calls
}

// Returns the job after one unbroken run: calls of the most that one takes, and one with what is left.
fn unbroken(job: Job, budgets: u64) -> Job {
    let most = Job::CALL_BUDGET as u64;
    let mut next = job;
    for _ in 0..budgets / most {
        next = next.carry_on(Job::CALL_BUDGET).job;
    }
    next.carry_on((budgets % most) as u32).job
}

// Prints the sums of accepted budgets and of corrections, and K.
fn show_sums(rt: &impl Print, budgets: u64, made: u64, k: u32) -> io::Result<()> {
    show::word(rt, b" budgets")?;
    show::number(rt, budgets)?;
    show::word(rt, b" made")?;
    show::number(rt, made)?;
    show::word(rt, b" K")?;
    show::number(rt, k as u64)
}

// Prints the list's name, the numbers that its calls gave, the sums, K, the stage, and whether the job is that of an unbroken run.
pub fn run(rt: &impl Print, line: &[u8]) -> io::Result<()> {
    let first_job = start(line);
    let calls = calls_on(first_job, line);
    let job = calls.job;
    show::word(rt, word(line, 0))?;
    tally::print(rt, b" carried", calls.carried)?;
    tally::print(rt, b" saved", calls.saved)?;
    show_sums(rt, calls.budgets, calls.made, job.state.k)?;
    stage::show(rt, job.state.stage)?;
    show::same(rt, same_job(job, unbroken(first_job, calls.budgets)))?;
    show::word(rt, b"\n")
}
