// Runs the calls on a job over jobs made by hand: at the edge of each refusal and of each line of "A sound job", with two refusals of
// an order at once, and with extreme contents. The cases are the lines of standard input; a line that starts with # says what those after
// it are for. Prints a line for each case, with what every call says.
#![tactic(auto)]

mod calls;
mod print;

use papers::line::{table_of, text_of};
use papers::show;
use papers::text::{first, word};
use std::io;
use std::io::Read;
use testing::make;

// Runs each line.
fn run(rt: &impl Print, lines: &[u8]) -> io::Result<()> {
    for line in lines.split_inclusive(|byte| *byte == b'\n') {
        run_line(rt, text_of(line))?;
    }
    Ok(())
}

// Prints the line of a case, then the fresh job of its table, its job after one call, or what the calls say of the line's job.
fn run_line(rt: &impl Print, line: &[u8]) -> io::Result<()> {
    if first(line) == b'#' {
        return Ok(());
    }
    show::word(rt, line)?;
    let letter = word(line, 3);
    if letter.len() == 0 {
        calls::on_table(rt, table_of(line))?;
    } else if letter[0] == b'D' {
        calls::on_decided(rt, table_of(line))?;
    } else {
        calls::on_job(rt, make::job(line), make::row(line), make::budget(line))?;
    }
    show::word(rt, b"\n")
}

fn main(rt: HostRuntime) -> io::Result<()> {
    let mut lines = Vec::new(rt.alloc());
    rt.reader().take(32768).read_to_end(&mut lines)?;
    run(&rt, &lines)
}
