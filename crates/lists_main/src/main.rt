// Makes long lists of calls on jobs, carry-on and save-and-read-back with refused ones between, and compares each job at the end with
// one unbroken run. Prints a line for each list.
#![tactic(auto)]

mod calls;
mod list;
mod starts;

use papers::line::text_of;
use std::io;

// Runs each line.
fn run(rt: &impl Print, lines: &[u8]) -> io::Result<()> {
    for line in lines.split_inclusive(|byte| *byte == b'\n') {
        list::run(rt, text_of(line))?;
    }
    Ok(())
}

fn main(rt: HostRuntime) -> io::Result<()> {
    run(&rt, &starts::STARTS)
}
