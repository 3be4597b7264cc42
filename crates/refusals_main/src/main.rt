// Runs the six checked calls on arguments at the edge of each refusal, on several refusals at once, of which the soonest in the call's
// order is given, and on extreme contents. Every row of the tables is cared for; `partial_main` has others. Prints what each call says.
#![tactic(auto)]

use std::io;

mod gate_refusals;
mod make;
mod rows;
mod show;
mod tables;
mod witnesses;

fn main(rt: HostRuntime) -> io::Result<()> {
    tables::inputs(&rt)?;
    tables::spare_bits(&rt)?;
    tables::spare_bytes(&rt)?;
    tables::full(&rt)?;
    rows::edges(&rt)?;
    rows::extremes(&rt)?;
    rows::table_value_order(&rt)?;
    rows::gate_value_order(&rt)?;
    gate_refusals::weights(&rt)?;
    gate_refusals::thresholds(&rt)?;
    gate_refusals::places(&rt)?;
    gate_refusals::full(&rt)?;
    gate_refusals::inputs(&rt)?;
    gate_refusals::check_gate_order(&rt)?;
    gate_refusals::verdicts(&rt)?;
    witnesses::counts(&rt)?;
    witnesses::rows(&rt)?;
    witnesses::full(&rt)?;
    witnesses::check_witness_order(&rt)?;
    witnesses::verdicts(&rt)
}
