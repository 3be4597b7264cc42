// The report of an input, printed on standard output. Each write is whole: after a short write of the operating system the rest is
// written too. A write that fails ends the report with its error.
ghost use Rattle.std.specs.Prelude.{◌≤◌, length};
ghost use Rattle.reporting.specs.Report.{input_most};

use batch::lines::fill;
use batch::progress::{at_start, is_done};
use reporting::line::too_long_line;
use std::io;

// The most bytes of an input.
const INPUT_MOST: usize = 65536;

// Prints the report of an input.
pub fn print_report(rt: &impl Print, input: &[u8]) -> io::Result<()> {
    if INPUT_MOST < input.len() {
        print_too_long(rt)
    } else {
        print_lines(rt, input)
    }
}

// Prints the only line of an input that is too long.
fn print_too_long(rt: &impl Print) -> io::Result<()> {
    let mut out = [0u8; 4096];
    let length = too_long_line(&mut out);
    rt.write_all(&out[..length])
}

// Prints the lines of a report, as many at a time as a buffer holds.
fn print_lines(rt: &impl Print, input: &[u8]) -> io::Result<()>
    requires { length input.now ≤ input_most }
{
    let mut out = [0u8; 65536];
    let mut progress = at_start();
    // kept: nothing is counted here, the loop goes on while a line is left
    while !is_done(progress) {
        let lines = fill(input, progress, &mut out);
        rt.write_all(&out[..lines.length])?;
        progress = lines.next;
    }
    Ok(())
}
