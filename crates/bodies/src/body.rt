// The bodies of records, which follow the kind byte: how many bytes each takes, and written into a lent buffer at a position. Each `put`
// returns the position after the body, and all other bytes keep their values. The body of a table alone is the field of a table.
ghost use Rattle.std.specs.Prelude.{◌≡◌, [], length};
ghost use Rattle.refusal.specs.Refusal.{NoneBroken};
ghost use Rattle.cell.specs.Calls.{gate_rules, witness_rules};
ghost use Rattle.job.specs.Calls.{job_rules};
ghost use Rattle.codec.specs.Written.{Room, Put};
ghost use Rattle.records.specs.Record.{gate_vector, numbers_bytes, body_bytes};

use job::job::Job;
use records::record::Record;
use rowlists::write::{put_rows, rows_length};
use table::table::row_count;
use types::gate::Gate;
use types::stage::Stage;
use types::table::Table;
use types::vector::Vector;
use types::witness::Witness;
use writing::length::{number_length, table_length, vector_length};
use writing::put::{put_number, put_table, put_vector};

// Returns the weights and T of a gate as a vector.
fn vector_of(gate: Gate) -> Vector
    ensures { result ≡ gate_vector gate }
{
    let a = gate.weights;
    Vector {
        a,
        b: gate.threshold,
    }
}

// Returns how many bytes a table with a gate takes.
pub fn gate_length(table: Table, gate: Gate) -> usize
    requires { NoneBroken (gate_rules table gate []) }
    ensures { result ≡ length (body_bytes (Record.Gate table gate)) }
{
    table_length(table) + vector_length(vector_of(gate), table.n)
}

// Writes a table with a gate.
pub fn put_gate(out: &mut [u8], at: usize, table: Table, gate: Gate) -> usize
    requires { NoneBroken (gate_rules table gate []) × Room out.old at (body_bytes (Record.Gate table gate)) }
    ensures { Put out.old at (body_bytes (Record.Gate table gate)) out.new result }
{
    let v_at = put_table(out, at, table);
    put_vector(out, v_at, table.n, vector_of(gate))
}

// Returns how many bytes a table with a witness takes.
pub fn witness_length(table: Table, witness: Witness) -> usize
    requires { NoneBroken (witness_rules table witness []) }
    ensures { result ≡ length (body_bytes (Record.Witness table witness)) }
{
    table_length(table) + rows_length(&witness.counts, row_count(table.n))
}

// Writes a table with a witness.
pub fn put_witness(out: &mut [u8], at: usize, table: Table, witness: Witness) -> usize
    requires { NoneBroken (witness_rules table witness []) × Room out.old at (body_bytes (Record.Witness table witness)) }
    ensures { Put out.old at (body_bytes (Record.Witness table witness)) out.new result }
{
    let rows_at = put_table(out, at, table);
    let length = put_rows(&mut out[rows_at..], &witness.counts, row_count(table.n));
    rows_at + length
}

// Returns how many bytes a job takes.
pub fn job_length(job: Job) -> usize
    requires { NoneBroken (job_rules job []) }
    ensures { result ≡ length (body_bytes (Record.Job job)) }
{
    let table = job.table;
    let state = job.state;
    let vectors = vector_length(job.state.v, table.n) + vector_length(job.state.s, table.n);
    table_length(table)
        + number_length(job.state.k)
        + vectors
        + rows_length(&state.counts, row_count(table.n))
}

// Writes K, v and s of a job.
fn put_numbers(out: &mut [u8], at: usize, job: Job) -> usize
    requires { NoneBroken (job_rules job []) × Room out.old at (numbers_bytes job) }
    ensures { Put out.old at (numbers_bytes job) out.new result }
{
    let n = job.table.n;
    let v_at = put_number(out, at, job.state.k);
    let s_at = put_vector(out, v_at, n, job.state.v);
    put_vector(out, s_at, n, job.state.s)
}

// Writes an open job.
pub fn put_job(out: &mut [u8], at: usize, job: Job) -> usize
    requires { NoneBroken (job_rules job []) × (job.state.stage ≡ Stage.Open) × Room out.old at (body_bytes (Record.Job job)) }
    ensures { Put out.old at (body_bytes (Record.Job job)) out.new result }
{
    let table = job.table;
    let state = job.state;
    let numbers_at = put_table(out, at, table);
    let counts_at = put_numbers(out, numbers_at, job);
    let length = put_rows(&mut out[counts_at..], &state.counts, row_count(table.n));
    counts_at + length
}
