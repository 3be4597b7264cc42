// What one carry-on gives: the verdict with its gate or witness, what the checker says of that, the corrections made, the rows that
// fail, and what one more carry-on makes of a job that has ended.
ghost use Rattle.std.specs.Prelude.{◌≤◌};

use cell::checker::{check_gate, check_witness};
use job::job::{Carried, Job};
use papers::show;
use std::io;
use testing::compare::same_job;
use types::gate::Gate;
use types::refusal::Refusal;
use types::table::Table;
use types::witness::Witness;
use view::shown::{Verdict, row_fails};

// Prints what the call gave, and returns the verdict's letter.
pub fn show_call(rt: &impl Print, carried: Carried) -> io::Result<u8> {
    let job = carried.job;
    let letter = show_verdict(rt, job)?;
    show_made(rt, carried.status, carried.made)?;
    show::word(rt, b" fails")?;
    show::number(rt, failing_rows(job))?;
    if letter != b'S' {
        show_more(rt, job)?;
    }
    Ok(letter)
}

// Prints the verdict's letter, K and the gate or witness with what the checker says of it; returns the letter.
fn show_verdict(rt: &impl Print, job: Job) -> io::Result<u8> {
    let table = job.table;
    let k = job.state.k as u64;
    match view::shown::show(job) {
        Ok(Verdict::Gate(gate)) => {
            show_gate(rt, table, k, gate)?;
            Ok(b'G')
        }
        Ok(Verdict::Witness(witness)) => {
            show_witness(rt, table, k, witness)?;
            Ok(b'N')
        }
        Ok(Verdict::Open) => {
            show::word(rt, b" S")?;
            show::number(rt, k)?;
            Ok(b'S')
        }
        Err(refusal) => {
            show::word(rt, b" R")?;
            show::number(rt, refusal.number() as u64)?;
            Ok(b'R')
        }
    }
}

// Prints G, K, the n weights and T, and what the checker says.
fn show_gate(rt: &impl Print, table: Table, k: u64, gate: Gate) -> io::Result<()> {
    show::word(rt, b" G")?;
    show::number(rt, k)?;
    show_weights(rt, gate.weights, gate.n as usize)?;
    show::signed(rt, gate.threshold)?;
    show::answer(rt, check_gate(table, gate))
}

// Prints the weights of the first n places.
fn show_weights(rt: &impl Print, weights: [i32; 8], n: usize) -> io::Result<()> {
    for weight in weights.iter().take(n) {
        show::signed(rt, *weight)?;
    }
    Ok(())
}

// Prints N, K, the rows with their counts, and what the checker says.
fn show_witness(rt: &impl Print, table: Table, k: u64, witness: Witness) -> io::Result<()> {
    show::word(rt, b" N")?;
    show::number(rt, k)?;
    show_counts(rt, witness.counts)?;
    show::answer(rt, check_witness(table, witness))
}

// Prints the counts above 0, each with its row, rows rising.
fn show_counts(rt: &impl Print, counts: [u32; 256]) -> io::Result<()> {
    for (row, count) in counts.iter().enumerate() {
        if 0 < *count {
            show::pair(rt, row as u64, *count as u64)?;
        }
    }
    Ok(())
}

// Prints the corrections made, or the number of a refusal.
fn show_made(rt: &impl Print, status: Result<(), Refusal>, made: u32) -> io::Result<()> {
    match status {
        Ok(()) => {
            show::word(rt, b" made")?;
            show::number(rt, made as u64)
        }
        Err(refusal) => {
            show::word(rt, b" refused")?;
            show::number(rt, refusal.number() as u64)
        }
    }
}

// Returns 1 for yes, else 0.
fn count_yes(answer: Result<bool, Refusal>) -> u64
    ensures { result ≤ 1 }
{
    answer.unwrap_or(false) as u64
}

// Returns the number of rows that fail in the job.
fn failing_rows(job: Job) -> u64 {
    let mut failing: u64 = 0;
    for row in 0..256 {
        failing = failing + count_yes(row_fails(job, row));
    }
    failing
}

// Prints the corrections that one more call makes, and whether the job stays the same.
fn show_more(rt: &impl Print, job: Job) -> io::Result<()> {
    let more = job.carry_on(Job::CALL_BUDGET);
    show::word(rt, b" more")?;
    show::number(rt, more.made as u64)?;
    show::same(rt, same_job(job, more.job))
}
