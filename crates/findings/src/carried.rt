// A job carried on by a budget, and the numbers of what it has found.
ghost use Rattle.std.specs.Prelude.{◌≡◌, length};
ghost use Rattle.handed.specs.Handed.{HandedBack, taken_after};
ghost use Rattle.findings.specs.Findings.{has_gate, has_witness, gate_found, counts_found, GateBack};

use arrays::taken::{put_counts, put_weights};
use job::job::Job;
use machine::vector::vector_gate;
use outcome::outcome::witness_of;
use types::refusal::Refusal;
use types::stage::Stage;

// Whether a job of this stage has ended with a gate.
fn has_gate(stage: Stage) -> bool
    ensures { result ≡ has_gate stage }
{
    stage == Stage::Found
}

// Whether a job of this stage has ended with a witness.
fn has_witness(stage: Stage) -> bool
    ensures { result ≡ has_witness stage }
{
    matches!(stage, Stage::Looped | Stage::Binate)
}

// Carries a job on by a budget; if it has found a gate, writes the weights of its inputs and sets the threshold, and `made` to the corrections
// made. Returns n. Refusals: those of the carry-on, 105, 12.
pub fn gate_after(
    job: Job,
    budget: u32,
    weights: &mut [i32],
    threshold: &mut i32,
    made: &mut u32,
) -> Result<u32, Refusal>
    ensures { GateBack (taken_after budget (gate_found (length weights.old)) job) weights.old threshold.old made.old
        result weights.new threshold.new made.new }
{
    let carried = job.carry_on(budget);
    carried.status?;
    let next = carried.job;
    let state = next.state;
    if !has_gate(state.stage) {
        return Err(Refusal::NotFound);
    }
    let n = put_weights(vector_gate(next.table.n, state.v), weights, threshold)?;
    *made = carried.made;
    Ok(n)
}

// Carries a job on by a budget; if it has ended with a witness, writes the count of each row of its table, and sets `made` to the corrections
// made. Returns the number of rows. Refusals: those of the carry-on, 105, 12.
pub fn counts_after(
    job: Job,
    budget: u32,
    counts: &mut [u32],
    made: &mut u32,
) -> Result<u32, Refusal>
    ensures { HandedBack (taken_after budget (counts_found (length counts.old)) job) counts.old made.old
        result counts.new made.new }
{
    let carried = job.carry_on(budget);
    carried.status?;
    let next = carried.job;
    let state = next.state;
    if !has_witness(state.stage) {
        return Err(Refusal::NotFound);
    }
    let rows = put_counts(next.table, witness_of(state), counts)?;
    *made = carried.made;
    Ok(rows)
}
