// What the calls say of the table of a line, with a row, a gate and a witness. The line is in the form that `testing::make` reads: its v is the
// gate's weights and T, its counts are the witness, and in the place of the budget stands the gate's n.
use crate::print;
use cell::checker::{check_gate, check_witness};
use cell::chow::chow_parameters;
use cell::inputs::input_kinds;
use cell::value::table_value;
use job::job::Job;
use papers::show;
use std::io;
use testing::make;
use types::gate::Gate;
use types::inputs::InputKind;
use types::table::Table;
use types::vector::Vector;
use types::witness::Witness;

// Prints what each call says.
pub fn on_line(rt: &impl Print, line: &[u8]) -> io::Result<()> {
    let Job { table, state } = make::job(line);
    let counts = state.counts;
    show::word(rt, b": table_value")?;
    show::answer(rt, table_value(table, make::row(line)))?;
    show::word(rt, b" check_gate")?;
    let n = (make::budget(line) % 256) as u8;
    show::answer(rt, check_gate(table, gate_of(n, state.v)))?;
    show::word(rt, b" check_witness")?;
    show::answer(rt, check_witness(table, Witness { counts }))?;
    on_inputs(rt, table)
}

// Returns the gate of n inputs with the weights and T of a vector.
fn gate_of(n: u8, v: Vector) -> Gate {
    let weights = v.a;
    Gate {
        n,
        weights,
        threshold: v.b,
    }
}

// Prints the kinds and the q of all eight places; beside a refusal idle and 0.
fn on_inputs(rt: &impl Print, table: Table) -> io::Result<()> {
    let kinds = input_kinds(table);
    show::word(rt, b" input_kinds")?;
    show::status(rt, kinds.and(Ok(())))?;
    print::kinds(rt, kinds.unwrap_or([InputKind::Idle; 8]))?;
    let q = chow_parameters(table);
    show::word(rt, b" chow_parameters")?;
    show::status(rt, q.and(Ok(())))?;
    print::numbers(rt, q.unwrap_or([0i32; 8]))
}
