// What follows a record's kind byte, read from a slice and a position, and the end.
ghost use Rattle.std.specs.Prelude.{◌≡◌, [], ◌∷◌, ◌≤◌, Ok};
ghost use Rattle.numbers.specs.Power.{highest};
ghost use Rattle.table.specs.Table.{rows_of};
ghost use Rattle.refusal.specs.Refusal.{and_then, checked};
ghost use Rattle.records.specs.Record.{gate_at, witness_at, counts_at, job_at, rest_at, body_at, bytes_left};

use crate::record::Record;
use job::job::Job;
use machine::core_state::{Core, state_of};
use machine::power::top_power;
use machine::vector::vector_gate;
use numerals::number::read_number;
use numerals::vector::read_vector;
use reading::tables::read_table;
use rowlists::read::read_rows;
use soundness::sound::is_sound;
use table::table::row_count;
use types::field::Field;
use types::kind::{Family, Head};
use types::refusal::Refusal;
use types::stage::Stage;
use types::table::Table;
use types::vector::Vector;
use types::witness::Witness;

// Reads the weights and T of a gate. Refusals: 1, 4, 7.
fn read_gate(bytes: &[u8], at: usize, table: Table) -> Result<Field<Record>, Refusal>
    requires { table.n ≤ 8 }
    ensures { result ≡ gate_at table bytes.now at }
{
    let field = read_vector(bytes, at, table.n, true)?;
    Ok(Field {
        value: Record::Gate(table, vector_gate(table.n, field.value)),
        next: field.next,
    })
}

// Returns the number of rows of n inputs.
fn rows_of(n: u8) -> u32
    requires { n ≤ 8 }
    ensures { result ≡ rows_of n }
{
    row_count(n) as u32
}

// Reads the counts of a witness. Refusals: 1, 4, 8.
fn read_witness(bytes: &[u8], at: usize, table: Table) -> Result<Field<Record>, Refusal>
    requires { table.n ≤ 8 }
    ensures { result ≡ witness_at table bytes.now at }
{
    let field = read_rows(bytes, at, rows_of(table.n), true)?;
    let counts = field.value.counts;
    Ok(Field {
        value: Record::Witness(table, Witness { counts }),
        next: field.next,
    })
}

// Returns the core of the open job of the numbers that a record holds. M is found from K.
fn open_core(k: u32, v: Vector, s: Vector) -> Core
    ensures { result ≡ record { k = k; v = v; mark = highest k; s = s; stage = Stage.Open } }
{
    Core {
        k,
        v,
        mark: top_power(k),
        s,
        stage: Stage::Open,
    }
}

// Reads the row list of a job whose other numbers were read, and tests the job. Refusals: 1, 4, 9.
fn read_counts(
    bytes: &[u8],
    at: usize,
    table: Table,
    k: u32,
    v: Vector,
    s: Vector,
) -> Result<Field<Record>, Refusal>
    requires { table.n ≤ 8 }
    ensures { result ≡ counts_at table k v s bytes.now at }
{
    let field = read_rows(bytes, at, rows_of(table.n), false)?;
    if !field.value.kept {
        return Err(Refusal::Unsound);
    }
    let counts = field.value.counts;
    let core = open_core(k, v, s);
    if !is_sound(table, core, &counts) {
        return Err(Refusal::Unsound);
    }
    Ok(Field {
        value: Record::Job(Job {
            table,
            state: state_of(core, counts),
        }),
        next: field.next,
    })
}

// Reads K, v, s and the row list of an open job. Refusals: 1, 4, 9.
fn read_job(bytes: &[u8], at: usize, table: Table) -> Result<Field<Record>, Refusal>
    requires { table.n ≤ 8 }
    ensures { result ≡ job_at table bytes.now at }
{
    let k = read_number(bytes, at)?;
    let v = read_vector(bytes, k.next, table.n, false)?;
    let s = read_vector(bytes, v.next, table.n, false)?;
    read_counts(bytes, s.next, table, k.value, v.value, s.value)
}

// Reads what follows a record's table at a position, by the family. Refusals: none of a table; 1, 4, and 7, 8 or 9 of the others.
#[tactic(auto, unfolding(crate::specs::Record::rest_at))]
fn rest_at(bytes: &[u8], at: usize, family: Family, table: Table) -> Result<Field<Record>, Refusal>
    requires { table.n ≤ 8 }
    ensures { result ≡ rest_at family table bytes.now at }
{
    match family {
        Family::Tables => Ok(Field {
            value: Record::Table(table),
            next: at,
        }),
        Family::Gates => read_gate(bytes, at, table),
        Family::Witnesses => read_witness(bytes, at, table),
        Family::Jobs => read_job(bytes, at, table),
    }
}

// Reads what follows a kind byte, of which `kind` is what reading it gave, at a position. Refusals: the kind's; 1, 4, 2, 3, 16 of the table;
// 7, 8 or 9 by the family.
#[tactic(auto, unfolding(crate::specs::Record::body_at))]
pub fn body_at(
    bytes: &[u8],
    at: usize,
    kind: Result<Field<Head>, Refusal>,
) -> Result<Field<Record>, Refusal>
    ensures { result ≡ and_then kind (λ head. body_at head.value bytes.now at) }
{
    let head = kind?.value;
    let table = read_table(bytes, at, head.cares)?;
    rest_at(bytes, table.next, head.family, table.value)
}

// Returns the record that was read, of which `body` is what reading it gave, if a position is at the end. Refusals: the record's; 6.
pub fn end_at(
    bytes: &[u8],
    at: usize,
    body: Result<Field<Record>, Refusal>,
) -> Result<Record, Refusal>
    ensures { result ≡ and_then body (λ read. checked (bytes_left bytes.now at ∷ []) (Ok read.value)) }
{
    let read = body?.value;
    if at < bytes.len() {
        return Err(Refusal::BytesLeft);
    }
    Ok(read)
}
