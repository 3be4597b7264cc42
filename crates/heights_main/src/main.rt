// Prints the cell manual's page of heights, the table of docs/HEIGHTS.md: sixteen lines of sixteen rows.
#![tactic(auto)]

use heights::page::page;
use papers::show;
use std::io;

// Prints an entry of a line.
fn entry(rt: &impl Print, number: u64) -> io::Result<()> {
    show::number(rt, number)?;
    show::word(rt, b" |")
}

// Begins a line at each sixteenth row, with the row's number.
fn begin_line(rt: &impl Print, row: usize) -> io::Result<()> {
    if row % 16 == 0 {
        show::word(rt, b"\n|")?;
        entry(rt, row as u64)?;
    }
    Ok(())
}

// Prints the sixteen lines. A line feed stands before each.
fn print_lines(rt: &impl Print, heights: [u8; 256]) -> io::Result<()> {
    for (row, height) in heights.iter().enumerate() {
        begin_line(rt, row)?;
        entry(rt, *height as u64)?;
    }
    Ok(())
}

fn main(rt: HostRuntime) -> io::Result<()> {
    show::word(
        &rt,
        b"| row | +0 | +1 | +2 | +3 | +4 | +5 | +6 | +7 | +8 | +9 | +10 | +11 | +12 | +13 | +14 | +15 |\n",
    )?;
    show::word(
        &rt,
        b"|---|---|---|---|---|---|---|---|---|---|---|---|---|---|---|---|---|",
    )?;
    print_lines(&rt, page())?;
    show::word(&rt, b"\n")
}
