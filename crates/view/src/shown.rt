// What a job shows: whether a row fails in it, and its gate, its witness or that it is given up so far.
ghost use Rattle.std.specs.Prelude.{◌≡◌, ◌<◌};
ghost use Rattle.function.specs.Failing.{fails};
ghost use Rattle.view.specs.Calls.{row_fails, show_job};
ghost use Rattle.table.specs.Table.{function_of};

use gates::gate::row_distance;
use job::job::{Job, job_status};
use machine::vector::vector_gate;
use scan::scan::fails_by;
use table::table::{row_cared, row_count, row_value};
use types::gate::Gate;
use types::refusal::Refusal;
use types::stage::Stage;
use types::table::Table;
use types::vector::Vector;
use types::witness::Witness;

// The three verdicts: a gate, a witness after which no gate exists, or given up so far.
#[derive(Clone, Copy, PartialEq, Eq)]
pub enum Verdict {
    Gate(Gate),
    Witness(Witness),
    Open,
}

// Whether a row fails by the vector.
#[tactic(auto, unfolding(function::specs::Failing::fails))]
fn fails_at(table: Table, v: Vector, row: usize) -> bool
    requires { row < 256 }
    ensures { result ≡ fails (function_of table) v row }
{
    fails_by(
        row_cared(table, row),
        row_value(table, row),
        row_distance(v.a, v.b, row),
    )
}

// Says whether a row fails in the job. Refusals: 2, 3, 16, 9, 14.
pub fn row_fails(job: Job, row: usize) -> Result<bool, Refusal>
    ensures { result ≡ row_fails job row }
{
    job_status(job)?;
    if row_count(job.table.n) <= row {
        return Err(Refusal::Row);
    }
    Ok(fails_at(job.table, job.state.v, row))
}

// Returns the job's gate, its witness, or that it is given up so far. Refusals: 2, 3, 16, 9.
pub fn show(job: Job) -> Result<Verdict, Refusal>
    ensures { result ≡ show_job job }
{
    job_status(job)?;
    let state = job.state;
    Ok(match state.stage {
        Stage::Open => Verdict::Open,
        Stage::Found => Verdict::Gate(vector_gate(job.table.n, state.v)),
        Stage::Looped | Stage::Binate => Verdict::Witness(Witness {
            counts: state.counts,
        }),
    })
}
