// Carries the job of each function on by one call, shows what came of it, and does the same in many small calls. Prints a line for each
// function, a second one where the job was still open, and last the numbers of verdicts and the sum of K over the gates; then the same of
// the partial tables.
#![tactic(auto)]

mod call;
mod paper_function;
mod split;

ghost use Rattle.std.specs.Prelude.{◌^◌, ◌≤◌, ◌<◌, length};

use paper_function::Outcome;
use papers::data::{FUNCTIONS, PARTIAL};
use papers::line::line_end;
use papers::show;
use std::io;

// Returns 1 where the outcome has this letter, else 0.
fn has_letter(outcome: Outcome, letter: u8) -> u64
    ensures { result ≤ 1 }
{
    if outcome.letter == letter { 1 } else { 0 }
}

// Returns K where a gate was found, else 0.
fn gate_k(outcome: Outcome) -> u64
    ensures { result < 2 ^ 32 }
{
    if outcome.letter == b'G' {
        outcome.k as u64
    } else {
        0
    }
}

// Runs each line, and prints the last one.
fn run(rt: &impl Print, lines: &[u8]) -> io::Result<()>
    requires { length lines.now ≤ 65536 }
{
    let mut gates: u64 = 0;
    let mut witnesses: u64 = 0;
    let mut given_up: u64 = 0;
    let mut gates_k: u64 = 0;
    let mut at: usize = 0;
    // kept: the sums are bounded by the position, which `split_inclusive` does not show
    while at < lines.len() {
        let end = line_end(lines, at);
        let outcome = paper_function::run(rt, &lines[at..end])?;
        gates = gates + has_letter(outcome, b'G');
        witnesses = witnesses + has_letter(outcome, b'N');
        given_up = given_up + has_letter(outcome, b'S');
        gates_k = gates_k + gate_k(outcome);
        at = end + 1;
    }
    summary(rt, gates, witnesses, given_up, gates_k)
}

// Prints the numbers of gates, of witnesses and of jobs given up so far, and the sum of K over the gates.
fn summary(
    rt: &impl Print,
    gates: u64,
    witnesses: u64,
    given_up: u64,
    gates_k: u64,
) -> io::Result<()> {
    show::word(rt, b"G")?;
    show::number(rt, gates)?;
    show::word(rt, b" N")?;
    show::number(rt, witnesses)?;
    show::word(rt, b" S")?;
    show::number(rt, given_up)?;
    show::word(rt, b" K")?;
    show::number(rt, gates_k)?;
    show::word(rt, b"\n")
}

fn main(rt: HostRuntime) -> io::Result<()> {
    let lines = FUNCTIONS;
    run(&rt, &lines)?;
    let partial = PARTIAL;
    run(&rt, &partial)
}
