// Runs the checked calls that take a table over tables with rows that are not cared for: what they say, at the edge of each refusal, and with two
// refusals of an order at once. The cases are the lines of standard input; a line that starts with # says what those after it are for. Prints
// a line for each case, with what every call says.
#![tactic(auto)]

mod calls;
mod print;

use papers::line::text_of;
use papers::show;
use papers::text::first;
use std::io;
use std::io::Read;

// Runs each line.
fn run(rt: &impl Print, lines: &[u8]) -> io::Result<()> {
    for line in lines.split_inclusive(|byte| *byte == b'\n') {
        run_line(rt, text_of(line))?;
    }
    Ok(())
}

// Prints the line of a case, and what the calls say of it.
fn run_line(rt: &impl Print, line: &[u8]) -> io::Result<()> {
    if first(line) == b'#' {
        return Ok(());
    }
    show::word(rt, line)?;
    calls::on_line(rt, line)?;
    show::word(rt, b"\n")
}

fn main(rt: HostRuntime) -> io::Result<()> {
    let mut lines = Vec::new(rt.alloc());
    rt.reader().take(16384).read_to_end(&mut lines)?;
    run(&rt, &lines)
}
