// A chunk of steps in the fast form: the vectors are sums in places of 16 bits, and become vectors again at its end.
ghost use Rattle.std.specs.Prelude.{◌≡◌, ◌+◌, ◌<◌, ◌≤◌, ◌++◌, length, drop, true, false, MatchOption};
ghost use Rattle.numbers.specs.Tabulate.{tabulate, Holds};
ghost use Rattle.lanes.specs.Sums.{magnitude};
ghost use Rattle.correction.specs.Steps.{step_at};
ghost use Rattle.state.specs.Machine.{run};
ghost use Rattle.state.specs.Sound.{cap, Sound};
ghost use Rattle.machine.specs.Core.{state_of};
ghost use Rattle.table.specs.Table.{function_of};

use correction::correction::correct;
use lanes::sums::{same_sums, sums_of, vector_of};
use machine::core_state::{Core, core_with};
use machine::power::top_power;
use search::keys::store_rows;
use search::search::lowest;
use table::table::row_count;
use types::stage::Stage;
use types::table::Table;

// The most steps of a chunk.
pub const CHUNK: u32 = 750;

// Sets the counts of so many rows to 0.
fn clear(counts: &mut [u32; 256], rows: usize)
    requires { (length counts.old ≡ 256) × (rows ≤ 256) }
    ensures { counts.new ≡ tabulate rows (λ row. 0) ++ drop rows counts.old }
{
    counts[..rows].fill(0);
}

// Returns the stage of a state by whether v = s, and else by what its search found: the code of the next step's row, or that no row fails.
fn stage_of(next: Option<usize>, looped: bool) -> Stage
    ensures { (looped ≡ true → result ≡ Stage.Looped) × (looped ≡ false → MatchOption next (result ≡ Stage.Found) (λ code. result ≡ Stage.Open)) }
{
    match next {
        _ if looped => Stage::Looped,
        Some(_) => Stage::Open,
        None => Stage::Found,
    }
}

// Carries a state on by at most 750 steps, or to its end; its core and its counts are apart, so that the counts stay where they are. The
// numbers of v and s are small enough for places of 16 bits. `steps` is the table of steps. A mark clears the counts of the table's rows:
// the others are 0.
// kept: one way to the vectors at the end, since with a return of its own at v = s a step is slower by a third
pub fn chunk(
    table: Table,
    core: Core,
    counts: &mut [u32; 256],
    budget: u32,
    steps: &[i16; 2048],
) -> Core
    requires n_bound { (table.n ≤ 8) × Sound (function_of table) (state_of core counts.old) × (core.stage ≡ Stage.Open) × (core.k + budget ≤ cap) }
    requires budget_bound { (budget ≤ 750) × (magnitude core.v ≤ 9000) × (magnitude core.s ≤ 9000) × Holds step_at 2048 steps.now }
    ensures { state_of result counts.new ≡ run (function_of table) budget (state_of core counts.old) }
{
    let mut ones = [0i16; 256];
    let mut keys = [0i16; 256];
    store_rows(&mut ones, &mut keys, table);
    let mut j = core;
    let mut v = sums_of(j.v);
    let mut s = sums_of(j.s);
    let mut looped = false;
    let mut next = lowest(&v, &ones, &keys, table);
    for _ in 0..budget {
        let Some(code) = next else {
            break;
        };
        j.k += 1;
        counts[code / 2] += 1;
        correct(&mut v, steps, code);
        if same_sums(&v, &s, table.n) {
            looped = true;
            next = None;
        } else {
            if top_power(j.k) == j.k {
                j.mark = j.k;
                s = v;
                clear(counts, row_count(table.n));
            }
            next = lowest(&v, &ones, &keys, table);
        }
    }
    core_with(j, vector_of(&v), vector_of(&s), stage_of(next, looped))
}
