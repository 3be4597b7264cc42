// What the calls say of a table or of a job.
use crate::print;
use job::job::{Carried, Job, job_status};
use papers::show;
use std::io;
use testing::compare::{is_gate_of, same_job, same_table};
use testing::make;
use types::gate::Gate;
use types::refusal::Refusal;
use types::table::Table;
use types::vector::Vector;
use view::shown::{Verdict, row_fails};

// Prints the fresh job of a table.
pub fn on_table(rt: &impl Print, table: Table) -> io::Result<()> {
    show::word(rt, b": fresh")?;
    started(rt, table, Job::fresh(table))
}

// Prints the job of a table after one carry-on of the whole call budget.
pub fn on_decided(rt: &impl Print, table: Table) -> io::Result<()> {
    show::word(rt, b": decided")?;
    started(rt, table, Job::decided(table))
}

// Prints what making a job of a table gave; beside a refusal the table's job with all numbers 0.
fn started(rt: &impl Print, table: Table, started: Result<Job, Refusal>) -> io::Result<()> {
    let job = started.unwrap_or(make::no_job(table));
    show::status(rt, started.and(Ok(())))?;
    print::job(rt, job)?;
    print::kept(rt, b" table", same_table(job.table, table))
}

// Prints what each call says of a job, asked for a row and carried on by a budget.
pub fn on_job(rt: &impl Print, job: Job, row: usize, budget: u32) -> io::Result<()> {
    show::word(rt, b": job_status")?;
    show::status(rt, job_status(job))?;
    show::word(rt, b" row_fails")?;
    show::answer(rt, row_fails(job, row))?;
    show::word(rt, b" show")?;
    shown(rt, job, view::shown::show(job))?;
    show::word(rt, b" carry_on")?;
    carried(rt, job, job.carry_on(budget))
}

// Prints the verdict, then of its gate whether it is all 0 or the job's v, or of its witness whether it is all 0 or the job's counts; none of what it
// has not.
fn shown(rt: &impl Print, job: Job, shown: Result<Verdict, Refusal>) -> io::Result<()> {
    match shown {
        Ok(Verdict::Gate(gate)) => {
            show::word(rt, b" gate")?;
            gate_part(rt, job, gate)?;
            show::word(rt, b" none")
        }
        Ok(Verdict::Witness(witness)) => {
            show::word(rt, b" witness")?;
            show::word(rt, b" none")?;
            let counts = witness.counts;
            print::part(
                rt,
                b" counts",
                counts == [0u32; 256],
                counts == job.state.counts,
            )
        }
        Ok(Verdict::Open) => {
            show::word(rt, b" open")?;
            no_parts(rt)
        }
        Err(refusal) => {
            show::number(rt, refusal.number() as u64)?;
            no_parts(rt)
        }
    }
}

// Prints that neither gate nor witness is shown, a write each, as the parts are written.
fn no_parts(rt: &impl Print) -> io::Result<()> {
    show::word(rt, b" none")?;
    show::word(rt, b" none")
}

// Prints whether a gate is all 0 or the job's v.
fn gate_part(rt: &impl Print, job: Job, gate: Gate) -> io::Result<()> {
    let zero = Vector { a: [0i32; 8], b: 0 };
    print::part(
        rt,
        b" v",
        is_gate_of(gate, 0, zero),
        is_gate_of(gate, job.table.n, job.state.v),
    )
}

// Prints the corrections made and the job after the call; of a refusal, whether the job is as it came in.
fn carried(rt: &impl Print, job: Job, carried: Carried) -> io::Result<()> {
    show::status(rt, carried.status)?;
    show::word(rt, b" made")?;
    show::number(rt, carried.made as u64)?;
    let next = carried.job;
    match carried.status {
        Ok(()) => {
            print::job(rt, next)?;
            print::kept(rt, b" table", same_table(next.table, job.table))
        }
        Err(_) => print::kept(rt, b"", same_job(next, job)),
    }
}
