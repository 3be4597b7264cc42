// The parts of an answer on standard output.
use job::job::Job;
use papers::show;
use std::io;
use testing::stage;
use types::vector::Vector;

// Writes none for what is all 0, the part's name for what is the job's, else other.
pub fn part(rt: &impl Print, name: &[u8], is_zero: bool, is_own: bool) -> io::Result<()> {
    if is_zero {
        show::word(rt, b" none")
    } else if is_own {
        show::word(rt, name)
    } else {
        show::word(rt, b" other")
    }
}

// Writes whether what was handed in is kept.
pub fn kept(rt: &impl Print, name: &[u8], is_kept: bool) -> io::Result<()> {
    show::word(rt, name)?;
    if is_kept {
        show::word(rt, b" kept")
    } else {
        show::word(rt, b" changed")
    }
}

// Writes the numbers and the stage of a job.
pub fn job(rt: &impl Print, job: Job) -> io::Result<()> {
    let state = job.state;
    numbers(rt, state.k, state.mark)?;
    vectors(rt, state.v, state.s, job.table.n as usize)?;
    show::word(rt, b" counts")?;
    pairs(rt, state.counts)?;
    stage::show(rt, state.stage)
}

// Writes K and M.
fn numbers(rt: &impl Print, k: u32, mark: u32) -> io::Result<()> {
    show::word(rt, b" K")?;
    show::number(rt, k as u64)?;
    show::word(rt, b" M")?;
    show::number(rt, mark as u64)
}

// Writes v and s.
fn vectors(rt: &impl Print, v: Vector, s: Vector, n: usize) -> io::Result<()> {
    show::word(rt, b" v")?;
    vector(rt, v, n)?;
    show::word(rt, b" s")?;
    vector(rt, s, n)
}

// Writes the first n weights and b.
fn vector(rt: &impl Print, v: Vector, n: usize) -> io::Result<()> {
    for weight in v.a.iter().take(n) {
        show::signed(rt, *weight)?;
    }
    show::signed(rt, v.b)
}

// Writes the counts above 0, each with its row.
fn pairs(rt: &impl Print, counts: [u32; 256]) -> io::Result<()> {
    for (row, count) in counts.iter().enumerate() {
        if *count != 0 {
            show::pair(rt, row as u64, *count as u64)?;
        }
    }
    Ok(())
}
