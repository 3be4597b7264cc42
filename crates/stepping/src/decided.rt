// A table decided: by a table of steps that was made before, once for many tables, or alone.
ghost use Rattle.std.specs.Prelude.{◌≡◌, ◌≤◌};
ghost use Rattle.numbers.specs.Tabulate.{Holds};
ghost use Rattle.correction.specs.Steps.{step_at};
ghost use Rattle.state.specs.Machine.{run, fresh, call_budget};
ghost use Rattle.table.specs.Table.{function_of};

use crate::start::fresh_state;
use crate::stepping::{is_ended, run};
use correction::steps::step_table;
use types::state::State;
use types::table::Table;

// The most corrections of one call.
pub const CALL_BUDGET: u32 = 100_000;

// Returns the state of a table of at most eight inputs after one carry-on of the whole call budget from its fresh one. `steps` is the table
// of steps.
pub fn decided_by(table: Table, steps: &[i16; 2048]) -> State
    requires { (table.n ≤ 8) × Holds step_at 2048 steps.now }
    ensures { result ≡ run (function_of table) call_budget (fresh (function_of table)) }
{
    run(table, fresh_state(table), CALL_BUDGET, steps)
}

// Returns the same state. The table of steps is made only where the fresh state is open.
pub fn decided_alone(table: Table) -> State
    requires { table.n ≤ 8 }
    ensures { result ≡ run (function_of table) call_budget (fresh (function_of table)) }
{
    let state = fresh_state(table);
    if is_ended(state.stage) {
        return state;
    }
    let steps = step_table();
    run(table, state, CALL_BUDGET, &steps)
}
