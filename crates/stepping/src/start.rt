// The state that a table starts with.
ghost use Rattle.std.specs.Prelude.{◌≡◌, ◌≤◌};
ghost use Rattle.state.specs.Machine.{start_state, fresh};
ghost use Rattle.std.specs.Prelude.{is_some};
ghost use Rattle.function.specs.Failing.{failing};
ghost use Rattle.function.specs.Vector.{zero_vector};
ghost use Rattle.table.specs.Table.{function_of};

use table::table::{row_cared, row_count};
use types::stage::Stage;
use types::state::State;
use types::table::Table;
use types::vector::Vector;
use unateness::binate::{binate_counts, binate_place};

// Returns the state with all numbers 0 but the counts.
pub fn start_state(counts: [u32; 256], stage: Stage) -> State
    ensures { result ≡ start_state counts stage }
{
    let zero = Vector { a: [0; 8], b: 0 };
    State {
        k: 0,
        v: zero,
        mark: 0,
        s: zero,
        counts,
        stage,
    }
}

// Whether some row is cared for.
fn some_cared(table: Table) -> bool
    requires { table.n ≤ 8 }
    ensures { result ≡ is_some (failing (function_of table) zero_vector) }
{
    for row in 0..row_count(table.n) {
        if row_cared(table, row) {
            return true;
        }
    }
    false
}

// Returns the fresh state of a table: open; found, where no row is cared for and so none fails; or binate with the counts that show it.
pub fn fresh_state(table: Table) -> State
    requires { table.n ≤ 8 }
    ensures { result ≡ fresh (function_of table) }
{
    let Some(place) = binate_place(table) else {
        let stage = if some_cared(table) {
            Stage::Open
        } else {
            Stage::Found
        };
        return start_state([0; 256], stage);
    };
    start_state(binate_counts(table, place), Stage::Binate)
}
