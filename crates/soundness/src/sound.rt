// The test that a state is sound on a table, whatever it holds.
ghost use Rattle.std.specs.Prelude.{◌≡◌, ◌<◌, ◌≤◌, true, false, not, ◌&&◌, ◌||◌, length, drop, ◌==◌, nat_le, is_some};
ghost use Rattle.numbers.specs.Tests.{all_at_most};
ghost use Rattle.table.specs.Table.{rows, function_of};
ghost use Rattle.table.specs.Gate.{in_range};
ghost use Rattle.table.specs.Witness.{CountArray};
ghost use Rattle.function.specs.Witness.{count_of, counts_cared};
ghost use Rattle.function.specs.Vector.{same_vector, zero_vector};
ghost use Rattle.function.specs.Failing.{failing};
ghost use Rattle.function.specs.Binate.{binate_place};
ghost use Rattle.machine.specs.Core.{state_of};
ghost use Rattle.state.specs.Sound.{cap, mark_for, is_traced, is_binate_with, sound_in, is_sound};

use machine::core_state::Core;
use machine::power::top_power;
use machine::vector::vector_within;
use rowwise::witness::{counts_cared, counts_within, same_counts};
use scan::scan::first_failing;
use table::table::row_count;
use trace::traced::is_traced;
use types::stage::Stage;
use types::table::Table;
use types::vector::Vector;
use unateness::binate::{binate_counts, binate_place};

// The most corrections of a job.
pub const CAP: u32 = 1_000_000;

// Whether some row fails.
fn some_fails(table: Table, core: Core) -> bool
    requires { (table.n ≤ 8) × (core.k ≤ cap) × (in_range core.k table.n core.v.a core.v.b ≡ true) }
    ensures { result ≡ is_some (failing (function_of table) core.v) }
{
    let mut distances = [0i32; 256];
    first_failing(&mut distances, &table.cares, &table.bytes, table, core.v).is_some()
}

// Whether some row fails, and v differs from s unless all counts are 0.
#[tactic(auto, using(crate::proofs::TestLaws::vectors_same))]
fn goes_on(table: Table, core: Core, counts: &[u32; 256]) -> bool
    requires { (table.n ≤ 8) × (core.k ≤ cap) × (in_range core.k table.n core.v.a core.v.b ≡ true) × (length counts.now ≡ 256) }
    ensures { result ≡ (is_some (failing (function_of table) core.v) && (not (same_vector core.v core.s) || all_at_most 0 counts.now)) }
{
    some_fails(table, core) && (core.v != core.s || counts_within(counts, 0, 0))
}

// Whether K is at least 2, and v is s again.
#[tactic(auto, using(crate::proofs::TestLaws::vectors_same))]
fn has_looped(core: Core) -> bool
    ensures { result ≡ (nat_le 2 core.k && same_vector core.v core.s) }
{
    2 <= core.k && core.v == core.s
}

// Whether the table is binate, and the counts are those that show it.
fn has_binate_counts(table: Table, counts: &[u32; 256]) -> bool
    requires { table.n ≤ 8 }
    ensures { result ≡ is_binate_with (function_of table) (binate_place (function_of table)) counts.now }
{
    let Some(place) = binate_place(table) else {
        return false;
    };
    same_counts(counts, &binate_counts(table, place))
}

// Whether the state is the fresh one of a binate table.
#[tactic(auto, using(crate::proofs::TestLaws::vectors_same))]
fn is_binate_start(table: Table, core: Core, counts: &[u32; 256]) -> bool
    requires { table.n ≤ 8 }
    ensures { result ≡ ((core.k == 0)
        && same_vector core.v zero_vector
        && same_vector core.s zero_vector
        && is_binate_with (function_of table) (binate_place (function_of table)) counts.now) }
{
    let zero = Vector { a: [0i32; 8], b: 0 };
    core.k == 0 && core.v == zero && core.s == zero && has_binate_counts(table, counts)
}

// Whether the state is traced, on a table that is not binate.
fn is_unate_trace(table: Table, core: Core, counts: &[u32; 256]) -> bool
    requires { (table.n ≤ 8) × CountArray counts.now }
    ensures { result ≡ (is_traced (function_of table) (state_of core counts.now) && not (is_some (binate_place (function_of table)))) }
{
    is_traced(table, core, counts) && binate_place(table).is_none()
}

// Returns the M that a state of this stage has after k corrections.
fn mark_for(stage: Stage, k: u32) -> u32
    ensures { result ≡ mark_for stage k }
{
    match stage {
        Stage::Looped => top_power(k.saturating_sub(1)),
        Stage::Open | Stage::Found | Stage::Binate => top_power(k),
    }
}

// Whether the state is in order for its stage.
#[tactic(auto, unfolding(state::specs::Sound::sound_in))]
fn sound_in(table: Table, core: Core, counts: &[u32; 256]) -> bool
    requires { (table.n ≤ 8) × (core.k ≤ cap) × (in_range core.k table.n core.v.a core.v.b ≡ true) × CountArray counts.now }
    ensures { result ≡ sound_in (function_of table) core.stage (state_of core counts.now) }
{
    match core.stage {
        Stage::Open => is_unate_trace(table, core, counts) && goes_on(table, core, counts),
        Stage::Found => is_unate_trace(table, core, counts) && !some_fails(table, core),
        Stage::Looped => is_unate_trace(table, core, counts) && has_looped(core),
        Stage::Binate => is_binate_start(table, core, counts),
    }
}

// Whether the counts of rows that are not cared for, and those past the table, are 0.
fn keeps_rows(table: Table, counts: &[u32; 256]) -> bool
    requires { (table.n ≤ 8) × (length counts.now ≡ 256) }
    ensures { result ≡ (counts_cared (function_of table) (count_of counts.now) && all_at_most 0 (drop (rows table) counts.now)) }
{
    counts_cared(table, counts) && counts_within(counts, row_count(table.n), 0)
}

// Whether K is at most the cap, v and s are within ±K, and the counts of rows that are not cared for and of those past the table are 0.
fn keeps_limits(table: Table, core: Core, counts: &[u32; 256]) -> bool
    requires { (table.n ≤ 8) × (length counts.now ≡ 256) }
    ensures { result ≡ (nat_le core.k cap
        && in_range core.k table.n core.v.a core.v.b
        && in_range core.k table.n core.s.a core.s.b
        && counts_cared (function_of table) (count_of counts.now)
        && all_at_most 0 (drop (rows table) counts.now)) }
{
    let n = table.n;
    let k = core.k;
    k <= CAP
        && vector_within(core.v, n, k)
        && vector_within(core.s, n, k)
        && keeps_rows(table, counts)
}

// Whether a state, taken apart, is sound.
#[tactic(auto, unfolding(state::specs::Sound::is_sound))]
pub fn is_sound(table: Table, core: Core, counts: &[u32; 256]) -> bool
    requires { (table.n ≤ 8) × CountArray counts.now }
    ensures { result ≡ is_sound (function_of table) (state_of core counts.now) }
{
    keeps_limits(table, core, counts)
        && core.mark == mark_for(core.stage, core.k)
        && sound_in(table, core, counts)
}
