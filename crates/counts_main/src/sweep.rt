// How the jobs of many tables of n inputs end.
ghost use Rattle.std.specs.Prelude.{◌≤◌};

use crate::{fitting, gate_counts, outcome, partial};
use cell::whole::whole_table;
use papers::show;
use std::io;
use types::table::Table;

// Returns the table of at most four inputs whose rows are the bits of a number.
fn whole(n: u8, rows: u32) -> Table {
    let mut bytes = [0u8; 32];
    bytes[0] = (rows % 256) as u8;
    bytes[1] = (rows / 256 % 256) as u8;
    whole_table(n, bytes)
}

// Returns the table of n inputs that a number stands for, a partial one or one with every row cared for.
fn table_of(n: u8, number: u32, is_partial: bool) -> Table {
    if is_partial {
        return partial::table(n, partial::rows_of(number));
    }
    whole(n, number)
}

// How many tables have a job of each stage, by the stage's number, the corrections of those jobs, and how many tables were accepted.
#[derive(Clone, Copy)]
struct Tally {
    jobs: [u64; 4],
    corrections: [u64; 4],
    accepted: u64,
}

// Returns the tally of the first so many tables of n inputs.
fn tally_of(n: u8, tables: u32, is_partial: bool) -> Tally
    requires { tables ≤ 65536 }
{
    let mut jobs = [0u64; 4];
    let mut corrections = [0u64; 4];
    let mut accepted: u64 = 0;
    for number in 0..tables {
        let ended = outcome::run(table_of(n, number, is_partial));
        let stage = ended.stage;
        jobs[stage] = jobs[stage] + 1;
        corrections[stage] = corrections[stage] + ended.corrections;
        accepted = accepted + ended.accepted;
    }
    Tally {
        jobs,
        corrections,
        accepted,
    }
}

// Prints the line of n, of which there are so many tables.
pub fn tables(rt: &impl Print, n: u8, tables: u32) -> io::Result<()>
    requires { tables ≤ 65536 }
{
    show_tally(rt, n, b" tables", tables, tally_of(n, tables, false))?;
    show::word(rt, b"\n")
}

// Prints the line of the partial tables of n inputs, of which there are so many. After what their jobs came to stand how many tables gates
// have, how many partial tables one of these fits, and how many are alike in both: found, and fitted, or neither.
pub fn partial_tables(rt: &impl Print, n: u8, tables: u32) -> io::Result<()>
    requires { tables ≤ 65536 }
{
    show_tally(rt, n, b" partial", tables, tally_of(n, tables, true))?;
    let have = gate_counts::tables(n);
    let fitted = fitting::compare(n, tables, &have);
    show::word(rt, b" by")?;
    show::number(rt, gate_counts::count(&have))?;
    show::word(rt, b" fit")?;
    show::number(rt, fitted.fit)?;
    show::word(rt, b" alike")?;
    show::number(rt, fitted.alike)?;
    show::word(rt, b"\n")
}

// Prints n, how many tables there are, and how their jobs ended.
fn show_tally(rt: &impl Print, n: u8, name: &[u8], tables: u32, tally: Tally) -> io::Result<()> {
    show::word(rt, b"n")?;
    show::number(rt, n as u64)?;
    show::word(rt, name)?;
    show::number(rt, tables as u64)?;
    show_stages(rt, tally)?;
    show::word(rt, b" accepted")?;
    show::number(rt, tally.accepted)
}

// Prints how many jobs ended in each stage, and the corrections of those that found a gate and of those that looped.
fn show_stages(rt: &impl Print, tally: Tally) -> io::Result<()> {
    let jobs = tally.jobs;
    let corrections = tally.corrections;
    show::word(rt, b" gates")?;
    show::number(rt, jobs[outcome::FOUND])?;
    show::word(rt, b" corrections")?;
    show::number(rt, corrections[outcome::FOUND])?;
    show::word(rt, b" looped")?;
    show::number(rt, jobs[outcome::LOOPED])?;
    show::word(rt, b" corrections")?;
    show::number(rt, corrections[outcome::LOOPED])?;
    show::word(rt, b" binate")?;
    show::number(rt, jobs[outcome::BINATE])?;
    show::word(rt, b" open")?;
    show::number(rt, jobs[outcome::OPEN])
}
