// The machine's steps, one after another.
ghost use Rattle.std.specs.Prelude.{◌≡◌, ◌+◌, ◌-◌, ◌<◌, ◌≤◌, true};
ghost use Rattle.numbers.specs.Tabulate.{Holds};
ghost use Rattle.table.specs.Gate.{weight_limit, in_range};
ghost use Rattle.lanes.specs.Sums.{magnitude};
ghost use Rattle.correction.specs.Steps.{step_at};
ghost use Rattle.machine.specs.Core.{state_of};
ghost use Rattle.state.specs.Machine.{is_ended, run};
ghost use Rattle.state.specs.Sound.{cap, Sound};
ghost use Rattle.table.specs.Table.{function_of};

use chunks::chunk::{CHUNK, chunk};
use lanes::size::is_small;
use machine::core_state::{Core, core_of, state_of};
use machine::power::top_power;
use machine::vector::{corrected_by, same_vector};
use scan::scan::first_failing;
use table::table::row_value;
use types::stage::Stage;
use types::state::State;
use types::table::Table;

// Whether the stage is an end.
pub fn is_ended(stage: Stage) -> bool
    ensures { result ≡ is_ended stage }
{
    stage != Stage::Open
}

// Returns the state after so many steps, or at its end. A step makes one search: the row that it finds is the next step's.
fn plain_steps(table: Table, state: State, budget: u32) -> State
    requires { (table.n ≤ 8) × Sound (function_of table) state × (state.stage ≡ Stage.Open) × (state.k + budget ≤ cap) }
    ensures { result ≡ run (function_of table) budget state }
{
    let mut distances = [0i32; 256];
    let mut j = state;
    let mut next = first_failing(&mut distances, &table.cares, &table.bytes, table, j.v);
    for _ in 0..budget {
        let Some(row) = next else {
            break;
        };
        let v = corrected_by(j.v, row_value(table, row), row);
        j.v = v;
        j.k += 1;
        j.counts[row] += 1;
        if same_vector(v, j.s) {
            j.stage = Stage::Looped;
            return j;
        }
        if top_power(j.k) == j.k {
            j.mark = j.k;
            j.s = v;
            j.counts = [0; 256];
        }
        next = first_failing(&mut distances, &table.cares, &table.bytes, table, j.v);
    }
    if next.is_none() {
        j.stage = Stage::Found;
    }
    j
}

// Where the fast form has come to: the core of the state, and how many of its steps are left to make.
#[derive(Clone, Copy)]
struct Way {
    core: Core,
    left: u32,
}

// Whether steps are left to make, and the fast form can make them: the state is open, and the numbers of v and s are small.
fn is_fast(core: Core, left: u32) -> bool
    requires { (in_range weight_limit 8 core.v.a core.v.b ≡ true) × (in_range weight_limit 8 core.s.a core.s.b ≡ true) }
    ensures { result ≡ true → (0 < left) × (core.stage ≡ Stage.Open) × (magnitude core.v ≤ 9000) × (magnitude core.s ≤ 9000) }
{
    left > 0 && !is_ended(core.stage) && is_small(core.v) && is_small(core.s)
}

// Carries a state on by so many steps, or to its end, chunk by chunk, as far as the fast form can make them; its counts stay where they are.
// `steps` is the table of steps.
fn fast_steps(
    table: Table,
    start: Core,
    counts: &mut [u32; 256],
    budget: u32,
    steps: &[i16; 2048],
) -> Way
    requires { (table.n ≤ 8) × Sound (function_of table) (state_of start counts.old) × (start.k + budget ≤ cap) × Holds step_at 2048 steps.now }
    ensures { (result.left ≤ budget) × (state_of result.core counts.new ≡ run (function_of table) (budget - result.left) (state_of start counts.old)) }
{
    let mut core = start;
    let mut left = budget;
    // kept: nothing is counted here, the loop goes on while the fast form can
    while is_fast(core, left) {
        let part = left.min(CHUNK);
        core = chunk(table, core, counts, part, steps);
        left -= part;
    }
    Way { core, left }
}

// Returns the state after so many steps, or at its end. `steps` is the table of steps.
pub fn run(table: Table, state: State, budget: u32, steps: &[i16; 2048]) -> State
    requires { (table.n ≤ 8) × Sound (function_of table) state × (state.k + budget ≤ cap) × Holds step_at 2048 steps.now }
    ensures { result ≡ run (function_of table) budget state }
{
    let mut counts = state.counts;
    let way = fast_steps(table, core_of(state), &mut counts, budget, steps);
    let next = state_of(way.core, counts);
    if way.left == 0 || is_ended(next.stage) {
        return next;
    }
    plain_steps(table, next, way.left)
}
