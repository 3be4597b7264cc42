// What the checked calls say of one function: its gate or witness, as it is and spoiled, Chow's parameters and the kinds of its inputs.
use cell::checker::{check_gate, check_witness};
use cell::chow::chow_parameters;
use cell::inputs::input_kinds;
use cell::value::{gate_value, table_value};
use papers::line::table_of;
use papers::show;
use papers::text::{first, number, signed, word, words_from};
use std::io;
use types::gate::Gate;
use types::inputs::InputKind;
use types::refusal::Refusal;
use types::table::Table;
use types::witness::Witness;

// Prints the function's line, and returns whether the places past n are idle and 0.
pub fn run(rt: &impl Print, line: &[u8]) -> io::Result<bool> {
    let table = table_of(line);
    show::word(rt, word(line, 0))?;
    show::number(rt, table.n as u64)?;
    let numbers = words_from(line, 4);
    if first(word(line, 3)) == b'G' {
        run_gate(rt, table, gate_of(table.n, numbers))?;
    } else {
        run_witness(rt, table, numbers)?;
    }
    run_inputs(rt, table)
}

// Prints what the checker says of the gate, the rows on which table and gate agree, and what it says of the gate with another T.
fn run_gate(rt: &impl Print, table: Table, gate: Gate) -> io::Result<()> {
    show::word(rt, b" gate")?;
    show::answer(rt, check_gate(table, gate))?;
    show::word(rt, b" rows")?;
    show::number(rt, agreeing_rows(table, gate))?;
    show::word(rt, b" off")?;
    show::answer(rt, check_gate(table, turned_at_0(gate)))
}

// Prints what the checker says of count 1 on each of the rows, and with the first row's count doubled.
fn run_witness(rt: &impl Print, table: Table, rows: &[u8]) -> io::Result<()> {
    show::word(rt, b" witness")?;
    show::answer(rt, check_witness(table, witness_of(rows, 1)))?;
    show::word(rt, b" off")?;
    show::answer(rt, check_witness(table, witness_of(rows, 2)))
}

// Prints q and the kinds of the n inputs, and ends the line.
fn run_inputs(rt: &impl Print, table: Table) -> io::Result<bool> {
    let q = chow_parameters(table).unwrap_or([0i32; 8]);
    let kinds = input_kinds(table).unwrap_or([InputKind::Idle; 8]);
    let n = table.n as usize;
    show::word(rt, b" q")?;
    show_q(rt, q, n)?;
    show::word(rt, b" kinds")?;
    show_kinds(rt, kinds, n)?;
    show::word(rt, b"\n")?;
    Ok(past_is_idle(q, kinds, n))
}

// Prints the q of the first n places.
fn show_q(rt: &impl Print, q: [i32; 8], n: usize) -> io::Result<()> {
    for parameter in q.iter().take(n) {
        show::signed(rt, *parameter)?;
    }
    Ok(())
}

// Prints the kinds of the first n places.
fn show_kinds(rt: &impl Print, kinds: [InputKind; 8], n: usize) -> io::Result<()> {
    for kind in kinds.iter().take(n) {
        show::kind(rt, *kind)?;
    }
    Ok(())
}

// Whether the places from n on are idle and 0.
fn past_is_idle(q: [i32; 8], kinds: [InputKind; 8], n: usize) -> bool {
    for place in n..8 {
        if q[place] != 0 || kinds[place] != InputKind::Idle {
            return false;
        }
    }
    true
}

// Returns the first row on which the table and the gate do not both say yes or both say no: the number of rows, where they agree on all.
fn agreeing_rows(table: Table, gate: Gate) -> u64 {
    for row in 0..256 {
        if !agree(table_value(table, row), gate_value(gate, row)) {
            return row as u64;
        }
    }
    256
}

// Whether both are yes or both no.
fn agree(a: Result<bool, Refusal>, b: Result<bool, Refusal>) -> bool {
    a.is_ok() && a == b
}

// Returns the gate with T 1 where its T is at most 0, else with T 0: its value on row 0, where the sum is 0, is another one.
fn turned_at_0(gate: Gate) -> Gate {
    Gate {
        threshold: if gate.threshold <= 0 { 1 } else { 0 },
        ..gate
    }
}

// Returns the gate of n inputs whose T and weights the words are.
fn gate_of(n: u8, numbers: &[u8]) -> Gate {
    let mut weights = [0i32; 8];
    for place in 0..8 {
        weights[place] = signed(word(numbers, place + 1));
    }
    Gate {
        n,
        weights,
        threshold: signed(word(numbers, 0)),
    }
}

// Returns the witness with count 1 on each of the rows that the words are, but `once` on the first.
fn witness_of(rows: &[u8], once: u32) -> Witness {
    let mut counts = [0u32; 256];
    let mut count = once;
    for k in 0..8 {
        let row = word(rows, k);
        if row.is_empty() {
            break;
        }
        counts[number(row) as usize % 256] = count;
        count = 1;
    }
    Witness { counts }
}
