// Carries the fresh job of each table of standard input on, by 100,000 corrections or to its end, and prints how many tables there
// were, how many jobs were found, looped, binate and open after it, the corrections made, the calls of carry-on, and the bytes that jobs
// were saved in. The input holds the heads of records, one after another; a head's kind byte is the way in which its job is carried on,
// as `ways` says it. What comes after the first head that breaks a rule of records, or after 65,536 bytes, does not count. bench/run
// times it.
#![tactic(auto)]

mod tally;
mod ways;

use std::io;
use std::io::Read;

fn main(rt: HostRuntime) -> io::Result<()> {
    let mut input = Vec::new(rt.alloc());
    rt.reader().take(65536).read_to_end(&mut input)?;
    tally::show(&rt, tally::of(&input))
}
