// Witnesses at the edge of 8; the order of the checker, and its verdicts.
ghost use Rattle.std.specs.Prelude.{◌<◌};

use crate::{make, show};
use cell::checker::check_witness;
use cell::whole::whole_table;
use std::io;
use types::table::Table;
use types::witness::Witness;

// All counts 0; then the limit of a count, what lies just beyond it and the end of the type, on the first row and on the last.
pub fn counts(rt: &impl Print) -> io::Result<()> {
    one(rt, 0, 0, 0, 0)?;
    one(rt, 2, 0, 0, 0)?;
    one(rt, 8, 0, 0, 0)?;
    one(rt, 0, 0, 0, 1_000_000)?;
    one(rt, 0, 0, 0, 1_000_001)?;
    one(rt, 0, 0, 0, u32::MAX)?;
    one(rt, 8, 0, 0, 1_000_000)?;
    one(rt, 8, 0, 0, 1_000_001)?;
    one(rt, 8, 0, 0, u32::MAX)?;
    one(rt, 8, 0, 255, 1_000_000)?;
    one(rt, 8, 0, 255, 1_000_001)?;
    one(rt, 8, 0, 255, u32::MAX)
}

// For each n the last row and the first past the table; for n 0 and 7 the last of the array too.
pub fn rows(rt: &impl Print) -> io::Result<()> {
    one(rt, 0, 0, 0, 1)?;
    one(rt, 0, 0, 1, 1)?;
    one(rt, 0, 0, 255, 1)?;
    one(rt, 1, 0, 1, 1)?;
    one(rt, 1, 0, 2, 1)?;
    one(rt, 2, 0, 3, 1)?;
    one(rt, 2, 0, 4, 1)?;
    one(rt, 3, 0, 7, 1)?;
    one(rt, 3, 0, 8, 1)?;
    one(rt, 4, 0, 15, 1)?;
    one(rt, 4, 0, 16, 1)?;
    one(rt, 5, 0, 31, 1)?;
    one(rt, 5, 0, 32, 1)?;
    one(rt, 6, 0, 63, 1)?;
    one(rt, 6, 0, 64, 1)?;
    one(rt, 7, 0, 127, 1)?;
    one(rt, 7, 0, 128, 1)?;
    one(rt, 7, 0, 255, 1)?;
    one(rt, 8, 0, 255, 1)
}

// 2, 3, 8, of tables with every row cared for (16 is in `partial_main`): 2 with 3, 2 with 8, 3 with 8 by no count, by a large one and by a row past the table, and all three.
pub fn check_witness_order(rt: &impl Print) -> io::Result<()> {
    one(rt, 9, 16, 0, 1)?;
    one(rt, 9, 0, 0, 0)?;
    one(rt, 9, 0, 0, 1_000_001)?;
    one(rt, 2, 16, 0, 0)?;
    one(rt, 2, 16, 0, 1_000_001)?;
    one(rt, 2, 16, 4, 1)?;
    one(rt, 255, 255, 255, u32::MAX)
}

fn one(rt: &impl Print, n: u8, byte: u8, row: usize, count: u32) -> io::Result<()>
    requires { row < 256 }
{
    show::table(rt, n, 0, byte)?;
    show::field(rt, b" row ", row as u64)?;
    show::field(rt, b" count ", count as u64)?;
    check(rt, make::table(n, 0, byte), make::witness(row, count))
}

fn check(rt: &impl Print, table: Table, witness: Witness) -> io::Result<()> {
    show::answer(rt, b": check_witness", check_witness(table, witness))?;
    show::end(rt)
}

// Every count the same, on the XOR of inputs 1 and 2: it balances up to the limit.
pub fn full(rt: &impl Print) -> io::Result<()> {
    all(rt, 8, 0)?;
    all(rt, 8, 1)?;
    all(rt, 8, 1_000_000)?;
    all(rt, 8, 1_000_001)?;
    all(rt, 8, u32::MAX)?;
    all(rt, 7, 1)?;
    all(rt, 255, u32::MAX)
}

fn all(rt: &impl Print, n: u8, count: u32) -> io::Result<()> {
    show::field(rt, b"table n ", n as u64)?;
    show::field(rt, b" all bytes 102 all counts ", count as u64)?;
    let counts = [count; 256];
    check(rt, whole_table(n, [102u8; 32]), Witness { counts })
}

// The XOR and the AND of two inputs, with a count for each row: both totals and each input's; a total or an input's that is apart; true
// rows alone; false rows alone.
pub fn verdicts(rt: &impl Print) -> io::Result<()> {
    of_two(rt, 6, 1, 1, 1, 1)?;
    of_two(rt, 6, 2, 2, 2, 2)?;
    of_two(rt, 6, 2, 1, 1, 1)?;
    of_two(rt, 6, 1, 2, 2, 1)?;
    of_two(rt, 6, 2, 1, 1, 0)?;
    of_two(rt, 6, 0, 1, 1, 0)?;
    of_two(rt, 6, 1, 0, 0, 1)?;
    of_two(rt, 8, 1, 0, 0, 1)?;
    of_two(rt, 8, 0, 1, 0, 1)?;
    of_two(rt, 8, 0, 0, 1, 1)?;
    of_two(rt, 8, 0, 1, 1, 1)
}

fn of_two(rt: &impl Print, byte: u8, a: u32, b: u32, c: u32, d: u32) -> io::Result<()> {
    show::table(rt, 2, 0, byte)?;
    show::field(rt, b" counts ", a as u64)?;
    show::field(rt, b" ", b as u64)?;
    show::field(rt, b" ", c as u64)?;
    show::field(rt, b" ", d as u64)?;
    let mut counts = [0u32; 256];
    counts[0] = a;
    counts[1] = b;
    counts[2] = c;
    counts[3] = d;
    check(rt, make::table(2, 0, byte), Witness { counts })
}
