// Writes the records of a set, reads them back, reads them cut at each length, from each position and with each byte changed, and
// writes them into a buffer of each length; then reads byte strings made by hand, and writes what a writer must refuse. The cases are the
// lines of standard input, each with its letter in front: r for a record of the set, s for a byte string, w for what a writer is given; a
// line that starts with # says what those after it are for. Prints two lines for each record of the set, and one for each of the others.
#![tactic(auto)]

mod buffer;
mod cases;
mod record;
mod spoiled;

use papers::line::text_of;
use papers::text::{first, words_from};
use std::io;
use std::io::Read;

// Runs each line.
fn run(rt: &impl Print, lines: &[u8]) -> io::Result<()> {
    for line in lines.split_inclusive(|byte| *byte == b'\n') {
        run_line(rt, text_of(line))?;
    }
    Ok(())
}

// Runs the case that the line's letter names.
fn run_line(rt: &impl Print, line: &[u8]) -> io::Result<()> {
    let letter = first(line);
    let case = words_from(line, 1);
    if letter == b'r' {
        cases::record(rt, case)
    } else if letter == b's' {
        cases::string(rt, case)
    } else if letter == b'w' {
        cases::refusal(rt, case)
    } else {
        Ok(())
    }
}

fn main(rt: HostRuntime) -> io::Result<()> {
    let mut lines = Vec::new(rt.alloc());
    rt.reader().take(32768).read_to_end(&mut lines)?;
    run(&rt, &lines)
}
