// Tables at the edge of 2 and 3, and what each of the five calls that take a table says.
ghost use Rattle.std.specs.Prelude.{◌<◌};

use crate::{make, show};
use cell::checker::{check_gate, check_witness};
use cell::chow::chow_parameters;
use cell::inputs::input_kinds;
use cell::value::table_value;
use cell::whole::whole_table;
use std::io;
use types::inputs::InputKind;
use types::table::Table;

// n: 8 is accepted, 9 and more are 2, also where a bit is set that 3 would name.
pub fn inputs(rt: &impl Print) -> io::Result<()> {
    one(rt, 8, 0, 0)?;
    one(rt, 9, 0, 0)?;
    one(rt, 255, 0, 0)?;
    one(rt, 9, 0, 255)?;
    one(rt, 255, 31, 255)
}

// For n 0, 1 and 2 the last bit that is a row's, the first spare bit and the last one.
pub fn spare_bits(rt: &impl Print) -> io::Result<()> {
    one(rt, 0, 0, 1)?;
    one(rt, 0, 0, 2)?;
    one(rt, 0, 0, 128)?;
    one(rt, 1, 0, 2)?;
    one(rt, 1, 0, 4)?;
    one(rt, 1, 0, 128)?;
    one(rt, 2, 0, 8)?;
    one(rt, 2, 0, 16)?;
    one(rt, 2, 0, 128)
}

// For each n the last byte of the length, where no bit is spare, the first byte past it, and the last of the array.
pub fn spare_bytes(rt: &impl Print) -> io::Result<()> {
    one(rt, 0, 1, 1)?;
    one(rt, 0, 31, 128)?;
    one(rt, 1, 1, 1)?;
    one(rt, 1, 31, 128)?;
    one(rt, 2, 1, 1)?;
    one(rt, 2, 31, 128)?;
    one(rt, 3, 0, 128)?;
    one(rt, 3, 1, 1)?;
    one(rt, 3, 31, 128)?;
    one(rt, 4, 1, 128)?;
    one(rt, 4, 2, 1)?;
    one(rt, 4, 31, 128)?;
    one(rt, 5, 3, 128)?;
    one(rt, 5, 4, 1)?;
    one(rt, 5, 31, 128)?;
    one(rt, 6, 7, 128)?;
    one(rt, 6, 8, 1)?;
    one(rt, 6, 31, 128)?;
    one(rt, 7, 15, 128)?;
    one(rt, 7, 16, 1)?;
    one(rt, 7, 31, 128)?;
    one(rt, 8, 31, 128)
}

// Every bit set.
pub fn full(rt: &impl Print) -> io::Result<()> {
    all(rt, 0)?;
    all(rt, 7)?;
    all(rt, 8)?;
    all(rt, 9)?;
    all(rt, 255)
}

fn one(rt: &impl Print, n: u8, at: usize, byte: u8) -> io::Result<()>
    requires { at < 32 }
{
    show::table(rt, n, at, byte)?;
    calls(rt, make::table(n, at, byte))
}

fn all(rt: &impl Print, n: u8) -> io::Result<()> {
    show::field(rt, b"table n ", n as u64)?;
    show::word(rt, b" all bytes 255")?;
    calls(rt, whole_table(n, [255u8; 32]))
}

// The row is 0, the gate is true on every row, and the witness counts row 0 alone.
fn calls(rt: &impl Print, table: Table) -> io::Result<()> {
    show::answer(rt, b": table_value", table_value(table, 0))?;
    let gate = make::gate(table.n, 0, 0, 0);
    show::answer(rt, b" check_gate", check_gate(table, gate))?;
    let witness = make::witness(0, 1);
    show::answer(rt, b" check_witness", check_witness(table, witness))?;
    show_kinds(rt, table)?;
    show_chow(rt, table)?;
    show::end(rt)
}

fn show_kinds(rt: &impl Print, table: Table) -> io::Result<()> {
    let kinds = input_kinds(table);
    let places = kinds.unwrap_or([InputKind::Idle; 8]);
    show::status(
        rt,
        b" input_kinds",
        kinds.and(Ok(())),
        b" idle",
        places == [InputKind::Idle; 8],
    )
}

fn show_chow(rt: &impl Print, table: Table) -> io::Result<()> {
    let q = chow_parameters(table);
    let numbers = q.unwrap_or([0i32; 8]);
    show::status(
        rt,
        b" chow_parameters",
        q.and(Ok(())),
        b" zero",
        numbers == [0i32; 8],
    )
}
