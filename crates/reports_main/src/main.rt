// Prints the reports of inputs: whole records, a refusal of each number, means on a half and beside one, the longest input, large sums, and
// tables with rows that are not cared for. Each comes after a line that names and spells the input.
#![tactic(auto)]

mod input;
mod inputs;

use papers::line::text_of;
use std::io;

// Runs each line.
fn run(rt: &impl Print, lines: &[u8]) -> io::Result<()> {
    for line in lines.split_inclusive(|byte| *byte == b'\n') {
        input::run(rt, text_of(line))?;
    }
    Ok(())
}

fn main(rt: HostRuntime) -> io::Result<()> {
    run(&rt, &inputs::WHOLE)?;
    run(&rt, &inputs::REFUSED)?;
    run(&rt, &inputs::MEANS)?;
    run(&rt, &inputs::LONG)?;
    run(&rt, &inputs::SUMS)?;
    run(&rt, &inputs::PARTIAL)
}
