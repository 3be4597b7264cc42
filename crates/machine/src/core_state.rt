// A state taken apart: its core and its counts, so that the counts can be lent.
ghost use Rattle.std.specs.Prelude.{◌≡◌};
ghost use Rattle.machine.specs.Core.{state_of, core_with};

use types::stage::Stage;
use types::state::State;
use types::vector::Vector;

// A state but for its counts.
#[derive(Clone, Copy)]
pub struct Core {
    pub k: u32,
    pub v: Vector,
    pub mark: u32,
    pub s: Vector,
    pub stage: Stage,
}

// Returns the core of a state.
pub fn core_of(state: State) -> Core
    ensures { state_of result state.counts ≡ state }
{
    Core {
        k: state.k,
        v: state.v,
        mark: state.mark,
        s: state.s,
        stage: state.stage,
    }
}

// Returns the core with other vectors, in a stage.
pub fn core_with(core: Core, v: Vector, s: Vector, stage: Stage) -> Core
    ensures { result ≡ core_with core v s stage }
{
    Core {
        v,
        s,
        stage,
        ..core
    }
}

// Returns the state put together.
pub fn state_of(core: Core, counts: [u32; 256]) -> State
    ensures { result ≡ state_of core counts }
{
    State {
        k: core.k,
        v: core.v,
        mark: core.mark,
        s: core.s,
        counts,
        stage: core.stage,
    }
}
