// One function: its job carried on by one call, by a second one where it is still open, and by many small ones.
use crate::call::show_call;
use crate::split::show_split;
use job::job::Job;
use papers::line::table_of;
use papers::show;
use papers::text::word;
use std::io;
use testing::make;

// The verdict's letter after one call (G a gate, N a witness, S given up so far), and K.
#[derive(Clone, Copy)]
pub struct Outcome {
    pub letter: u8,
    pub k: u32,
}

// Prints the function's line, or its two.
pub fn run(rt: &impl Print, line: &[u8]) -> io::Result<Outcome> {
    let table = table_of(line);
    show::word(rt, word(line, 0))?;
    show::number(rt, table.n as u64)?;
    let fresh = Job::fresh(table).unwrap_or(make::no_job(table));
    let carried = fresh.carry_on(Job::CALL_BUDGET);
    let job = carried.job;
    let letter = show_call(rt, carried)?;
    show_split(rt, job)?;
    show::word(rt, b"\n")?;
    if letter == b'S' {
        run_again(rt, word(line, 0), job)?;
    }
    Ok(Outcome {
        letter,
        k: job.state.k,
    })
}

// Prints the line of a second call.
fn run_again(rt: &impl Print, name: &[u8], job: Job) -> io::Result<()> {
    show::word(rt, name)?;
    show::word(rt, b" again")?;
    show_call(rt, job.carry_on(Job::CALL_BUDGET))?;
    show::word(rt, b"\n")
}
