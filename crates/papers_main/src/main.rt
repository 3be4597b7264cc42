// Runs the checked calls over the functions and prints a line for each, then their number and whether the places past n were
// idle and 0 in every one; then the same over the partial tables.
#![tactic(auto)]

mod paper_function;

use papers::data::{FUNCTIONS, PARTIAL};
use papers::line::line_end;
use papers::show;
use std::io;

// Runs each line, and prints the last two.
fn run(rt: &impl Print, lines: &[u8]) -> io::Result<()> {
    let mut functions: u64 = 0;
    let mut all_idle = true;
    let mut at: usize = 0;
    // kept: the number of lines is bounded by the position, which `split_inclusive` does not show
    while at < lines.len() {
        let end = line_end(lines, at);
        let idle = paper_function::run(rt, &lines[at..end])?;
        all_idle = all_idle && idle;
        functions = functions + 1;
        at = end + 1;
    }
    summary(rt, functions, all_idle)
}

// Prints the number of functions, and whether the places past n were idle and 0 in all.
fn summary(rt: &impl Print, functions: u64, all_idle: bool) -> io::Result<()> {
    show::word(rt, b"functions")?;
    show::number(rt, functions)?;
    show::word(rt, b"\npast n: ")?;
    if all_idle {
        show::word(rt, b"idle and 0 in all functions\n")
    } else {
        show::word(rt, b"not idle or not 0\n")
    }
}

fn main(rt: HostRuntime) -> io::Result<()> {
    let lines = FUNCTIONS;
    run(&rt, &lines)?;
    let partial = PARTIAL;
    run(&rt, &partial)
}
