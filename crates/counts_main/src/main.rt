// Runs the job of every table of up to four inputs, and of every partial table of up to three, and counts the tables by the stage that the
// job ends in. Prints a line for each n, of all tables and of partial ones. The gates of all tables are the published counts of threshold
// functions; those of partial tables are compared, table by table, with what gates fit.
#![tactic(auto)]

mod fitting;
mod gate_counts;
mod outcome;
mod partial;
mod sweep;

use std::io;

fn main(rt: HostRuntime) -> io::Result<()> {
    sweep::tables(&rt, 0, 2)?;
    sweep::tables(&rt, 1, 4)?;
    sweep::tables(&rt, 2, 16)?;
    sweep::tables(&rt, 3, 256)?;
    sweep::tables(&rt, 4, 65_536)?;
    sweep::partial_tables(&rt, 0, 3)?;
    sweep::partial_tables(&rt, 1, 9)?;
    sweep::partial_tables(&rt, 2, 81)?;
    sweep::partial_tables(&rt, 3, 6_561)
}
