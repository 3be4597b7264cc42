// Reads records of kinds 1 and 5 from standard input, one after another, and prints the report: a line for each, and the last line.
#![tactic(auto)]

use printing::report::print_report;
use std::io;
use std::io::Read;

// Reads at most one byte more than a report takes, which is enough to refuse a longer input.
fn main(rt: HostRuntime) -> io::Result<()> {
    let mut input = Vec::new(rt.alloc());
    rt.reader().take(65537).read_to_end(&mut input)?;
    print_report(&rt, &input)
}
