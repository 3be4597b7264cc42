// Gates at the edge of 7, asked for their value on row 0 and checked against the table that is false on every row; the n of a table
// and of a gate; the order of the checker, and its verdicts.
ghost use Rattle.std.specs.Prelude.{◌<◌};

use crate::{make, show};
use cell::checker::check_gate;
use cell::value::gate_value;
use cell::whole::whole_table;
use std::io;
use types::gate::Gate;

// The limits of a weight, what lies just beyond them, and the ends of the type, at each place.
pub fn weights(rt: &impl Print) -> io::Result<()> {
    each_place(rt, b" weight 1000000", 1_000_000)?;
    each_place(rt, b" weight 1000001", 1_000_001)?;
    each_place(rt, b" weight 2147483647", i32::MAX)?;
    each_place(rt, b" weight -1000000", -1_000_000)?;
    each_place(rt, b" weight -1000001", -1_000_001)?;
    each_place(rt, b" weight -2147483648", i32::MIN)
}

fn each_place(rt: &impl Print, text: &[u8], weight: i32) -> io::Result<()> {
    of_eight(rt, 0, text, weight)?;
    of_eight(rt, 1, text, weight)?;
    of_eight(rt, 2, text, weight)?;
    of_eight(rt, 3, text, weight)?;
    of_eight(rt, 4, text, weight)?;
    of_eight(rt, 5, text, weight)?;
    of_eight(rt, 6, text, weight)?;
    of_eight(rt, 7, text, weight)
}

fn of_eight(rt: &impl Print, place: usize, text: &[u8], weight: i32) -> io::Result<()>
    requires { place < 8 }
{
    show::field(rt, b"gate n 8 place ", place as u64)?;
    show::word(rt, text)?;
    calls(rt, make::gate(8, place, weight, 0))
}

// The same of T.
pub fn thresholds(rt: &impl Print) -> io::Result<()> {
    threshold(rt, b" T 1000000", 1_000_000)?;
    threshold(rt, b" T 1000001", 1_000_001)?;
    threshold(rt, b" T 2147483647", i32::MAX)?;
    threshold(rt, b" T -1000000", -1_000_000)?;
    threshold(rt, b" T -1000001", -1_000_001)?;
    threshold(rt, b" T -2147483648", i32::MIN)
}

fn threshold(rt: &impl Print, text: &[u8], threshold: i32) -> io::Result<()> {
    show::word(rt, b"gate n 8")?;
    show::word(rt, text)?;
    calls(rt, make::gate(8, 0, 0, threshold))
}

// For each n the last of its places, the first past it and the last of the eight, with weight 1.
pub fn places(rt: &impl Print) -> io::Result<()> {
    place(rt, 0, 0)?;
    place(rt, 0, 7)?;
    place(rt, 1, 0)?;
    place(rt, 1, 1)?;
    place(rt, 1, 7)?;
    place(rt, 2, 1)?;
    place(rt, 2, 2)?;
    place(rt, 3, 2)?;
    place(rt, 3, 3)?;
    place(rt, 4, 3)?;
    place(rt, 4, 4)?;
    place(rt, 5, 4)?;
    place(rt, 5, 5)?;
    place(rt, 6, 5)?;
    place(rt, 6, 6)?;
    place(rt, 7, 6)?;
    place(rt, 7, 7)?;
    place(rt, 8, 7)
}

fn place(rt: &impl Print, n: u8, place: usize) -> io::Result<()>
    requires { place < 8 }
{
    show::gate(rt, n, place, 1, 0)?;
    calls(rt, make::gate(n, place, 1, 0))
}

// Every weight and T the same: at the limits, at the ends of the type, and with a place past n.
pub fn full(rt: &impl Print) -> io::Result<()> {
    all(rt, 8, b" all 1000000", 1_000_000)?;
    all(rt, 8, b" all -1000000", -1_000_000)?;
    all(rt, 8, b" all 2147483647", i32::MAX)?;
    all(rt, 8, b" all -2147483648", i32::MIN)?;
    all(rt, 255, b" all -2147483648", i32::MIN)?;
    all(rt, 7, b" all 1", 1)?;
    all(rt, 7, b" all -1", -1)
}

fn all(rt: &impl Print, n: u8, text: &[u8], weight: i32) -> io::Result<()> {
    show::field(rt, b"gate n ", n as u64)?;
    show::word(rt, text)?;
    calls(
        rt,
        Gate {
            n,
            weights: [weight; 8],
            threshold: weight,
        },
    )
}

fn calls(rt: &impl Print, gate: Gate) -> io::Result<()> {
    show::answer(rt, b": gate_value", gate_value(gate, 0))?;
    let table = make::table(gate.n, 0, 0);
    show::answer(rt, b" check_gate", check_gate(table, gate))?;
    show::end(rt)
}

// 2 where an n is above 8, or the two are not the same.
pub fn inputs(rt: &impl Print) -> io::Result<()> {
    pair(rt, 8, 0, 8, 0, 0, 0)?;
    pair(rt, 9, 0, 9, 0, 0, 0)?;
    pair(rt, 255, 0, 255, 0, 0, 0)?;
    pair(rt, 2, 0, 3, 0, 0, 0)?;
    pair(rt, 3, 0, 2, 0, 0, 0)?;
    pair(rt, 8, 0, 9, 0, 0, 0)?;
    pair(rt, 9, 0, 8, 0, 0, 0)?;
    pair(rt, 0, 0, 255, 0, 0, 0)?;
    pair(rt, 255, 0, 0, 0, 0, 0)
}

// 2, 3, 7, of tables with every row cared for (16 is in `partial_main`): 2 with 3, 2 with 7, 3 with 7 by a weight, by T and by a place past n, and all three.
pub fn check_gate_order(rt: &impl Print) -> io::Result<()> {
    pair(rt, 2, 16, 3, 0, 0, 0)?;
    pair(rt, 9, 16, 9, 0, 0, 0)?;
    pair(rt, 2, 0, 3, 0, 0, 1_000_001)?;
    pair(rt, 2, 16, 2, 0, 1_000_001, 0)?;
    pair(rt, 2, 16, 2, 0, 0, 1_000_001)?;
    pair(rt, 2, 16, 2, 7, 1, 0)?;
    pair(rt, 2, 255, 1, 0, 2_147_483_647, 2_147_483_647)
}

fn pair(
    rt: &impl Print,
    n: u8,
    byte: u8,
    of_gate: u8,
    place: usize,
    weight: u32,
    threshold: u32,
) -> io::Result<()>
    requires { (place < 8) × (weight < 2147483648) × (threshold < 2147483648) }
{
    show::table(rt, n, 0, byte)?;
    show::word(rt, b" ")?;
    show::gate(rt, of_gate, place, weight, threshold)?;
    let table = make::table(n, 0, byte);
    let gate = make::gate(of_gate, place, weight as i32, threshold as i32);
    show::answer(rt, b": check_gate", check_gate(table, gate))?;
    show::end(rt)
}

// The AND, the majority and the OR of three inputs, each with its T and those beside it. One row tells the AND from T 4, and one the OR
// from T 0.
pub fn verdicts(rt: &impl Print) -> io::Result<()> {
    of_three(rt, 128, 2)?;
    of_three(rt, 128, 3)?;
    of_three(rt, 128, 4)?;
    of_three(rt, 232, 1)?;
    of_three(rt, 232, 2)?;
    of_three(rt, 232, 3)?;
    of_three(rt, 254, 0)?;
    of_three(rt, 254, 1)?;
    of_three(rt, 254, 2)?;
    or_of_eight(rt, b" 1", 1)?;
    or_of_eight(rt, b" 1000000", 1_000_000)
}

fn of_three(rt: &impl Print, byte: u8, threshold: u32) -> io::Result<()>
    requires { threshold < 2147483648 }
{
    show::table(rt, 3, 0, byte)?;
    show::field(rt, b" gate 1 1 1 T ", threshold as u64)?;
    let table = make::table(3, 0, byte);
    let gate = Gate {
        n: 3,
        weights: [1, 1, 1, 0, 0, 0, 0, 0],
        threshold: threshold as i32,
    };
    show::answer(rt, b": check_gate", check_gate(table, gate))?;
    show::end(rt)
}

fn or_of_eight(rt: &impl Print, text: &[u8], weight: i32) -> io::Result<()> {
    show::word(rt, b"or of eight, weights and T")?;
    show::word(rt, text)?;
    let mut bytes = [255u8; 32];
    bytes[0] = 254;
    let gate = Gate {
        n: 8,
        weights: [weight; 8],
        threshold: weight,
    };
    show::answer(rt, b": check_gate", check_gate(whole_table(8, bytes), gate))?;
    show::end(rt)
}
