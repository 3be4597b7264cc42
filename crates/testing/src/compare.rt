// Whether tables, gates and jobs are the same in every field.
ghost use Rattle.std.specs.Prelude.{◌≡◌, true, ◌↔◌};

use job::job::Job;
use types::gate::Gate;
use types::table::Table;
use types::vector::Vector;

// Whether the tables are the same.
pub fn same_table(x: Table, y: Table) -> bool
    ensures { result ≡ true ↔ x ≡ y }
{
    x == y
}

// Whether the gate has n inputs, with the weights and T that a vector is.
pub fn is_gate_of(gate: Gate, n: u8, v: Vector) -> bool {
    let weights = v.a;
    let threshold = v.b;
    gate == Gate {
        n,
        weights,
        threshold,
    }
}

// Whether the jobs are the same.
pub fn same_job(x: Job, y: Job) -> bool {
    x == y
}
