// Rows at the edge of 14, and the orders of the two calls that take a row.
ghost use Rattle.std.specs.Prelude.{◌<◌};

use crate::{make, show};
use cell::value::{gate_value, table_value};
use std::io;

// For each n the last row and the first past the table.
pub fn edges(rt: &impl Print) -> io::Result<()> {
    row(rt, 0, 0)?;
    row(rt, 0, 1)?;
    row(rt, 1, 1)?;
    row(rt, 1, 2)?;
    row(rt, 2, 3)?;
    row(rt, 2, 4)?;
    row(rt, 3, 7)?;
    row(rt, 3, 8)?;
    row(rt, 4, 15)?;
    row(rt, 4, 16)?;
    row(rt, 5, 31)?;
    row(rt, 5, 32)?;
    row(rt, 6, 63)?;
    row(rt, 6, 64)?;
    row(rt, 7, 127)?;
    row(rt, 7, 128)?;
    row(rt, 8, 255)?;
    row(rt, 8, 256)
}

// The largest row that the type holds; and 14 with 2.
pub fn extremes(rt: &impl Print) -> io::Result<()> {
    row(rt, 0, usize::MAX)?;
    row(rt, 8, usize::MAX)?;
    row(rt, 9, 256)?;
    row(rt, 9, 512)?;
    row(rt, 255, 0)?;
    row(rt, 255, usize::MAX)
}

// A table that is false on every row, and a gate that is true on every row.
fn row(rt: &impl Print, n: u8, row: usize) -> io::Result<()> {
    show::field(rt, b"n ", n as u64)?;
    show::field(rt, b" row ", row as u64)?;
    show::answer(rt, b": table_value", table_value(make::table(n, 0, 0), row))?;
    show::answer(rt, b" gate_value", gate_value(make::gate(n, 0, 0, 0), row))?;
    show::end(rt)
}

// 2, 3, 14, of tables with every row cared for (16 is in `partial_main`): 2 with 3, 3 with 14 by a bit and by a byte, and all three.
pub fn table_value_order(rt: &impl Print) -> io::Result<()> {
    row_of_table(rt, 9, 0, 1, 0)?;
    row_of_table(rt, 2, 0, 16, 4)?;
    row_of_table(rt, 7, 16, 1, 128)?;
    row_of_table(rt, 255, 31, 255, usize::MAX)
}

fn row_of_table(rt: &impl Print, n: u8, at: usize, byte: u8, row: usize) -> io::Result<()>
    requires { at < 32 }
{
    show::table(rt, n, at, byte)?;
    show::field(rt, b" row ", row as u64)?;
    show::answer(
        rt,
        b": table_value",
        table_value(make::table(n, at, byte), row),
    )?;
    show::end(rt)
}

// 2, 7, 14: 2 with 7 by a weight and by T, 7 with 14 by a weight, by T and by a place past n, and all three.
pub fn gate_value_order(rt: &impl Print) -> io::Result<()> {
    row_of_gate(rt, 9, 0, 1_000_001, 0, 0)?;
    row_of_gate(rt, 9, 0, 0, 1_000_001, 0)?;
    row_of_gate(rt, 2, 0, 1_000_001, 0, 4)?;
    row_of_gate(rt, 2, 0, 0, 1_000_001, 4)?;
    row_of_gate(rt, 2, 2, 1, 0, 4)?;
    row_of_gate(rt, 255, 7, 2_147_483_647, 2_147_483_647, usize::MAX)
}

fn row_of_gate(
    rt: &impl Print,
    n: u8,
    place: usize,
    weight: u32,
    threshold: u32,
    row: usize,
) -> io::Result<()>
    requires { (place < 8) × (weight < 2147483648) × (threshold < 2147483648) }
{
    show::gate(rt, n, place, weight, threshold)?;
    show::field(rt, b" row ", row as u64)?;
    let gate = make::gate(n, place, weight as i32, threshold as i32);
    show::answer(rt, b": gate_value", gate_value(gate, row))?;
    show::end(rt)
}
