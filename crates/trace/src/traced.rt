// How a job came to its vector: the counts of its rows since the mark, summed and compared. Sums are of 64 bits, so that none wraps.
ghost use Rattle.std.specs.Prelude.{◌≡◌, ◌^◌, ◌<◌, ◌≤◌, pos, ◌+ℤ◌};
ghost use Rattle.numbers.specs.Tests.{same_z};
ghost use Rattle.table.specs.Table.{function_of};
ghost use Rattle.table.specs.Witness.{CountArray};
ghost use Rattle.function.specs.Vector.{component};
ghost use Rattle.state.specs.Sound.{is_traced};
ghost use Rattle.machine.specs.Core.{state_of};

use machine::core_state::Core;
use sides::sums::side_sums;
use types::table::Table;
use types::vector::Vector;

// Returns the component of a vector that a correction changes by the level of the input: input 0 is the negation of b.
fn component(v: Vector, input: usize) -> i64
    requires { input ≤ 8 }
    ensures { result ≡ component v input }
{
    if input == 0 {
        return 0 - v.b as i64;
    }
    v.a[input - 1] as i64
}

// Whether v is s with what the true rows add and the false rows take away, at one input.
fn traced_at(v: Vector, s: Vector, input: usize, added: u64, taken: u64) -> bool
    requires { (input ≤ 8) × (added < 2 ^ 40) × (taken < 2 ^ 40) }
    ensures { result ≡ same_z (component v input +ℤ pos taken) (component s input +ℤ pos added) }
{
    component(v, input) + taken as i64 == component(s, input) + added as i64
}

// Whether the counts add up to K − M, and v is s with each row's correction times its count.
pub fn is_traced(table: Table, core: Core, counts: &[u32; 256]) -> bool
    requires { (table.n ≤ 8) × CountArray counts.now }
    ensures { result ≡ is_traced (function_of table) (state_of core counts.now) }
{
    let added = side_sums(table, true, counts);
    let taken = side_sums(table, false, counts);
    if added[0] + taken[0] + core.mark as u64 != core.k as u64 {
        return false;
    }
    let n = table.n as usize;
    for input in 0..=n {
        if !traced_at(core.v, core.s, input, added[input], taken[input]) {
            return false;
        }
    }
    true
}
