// Records written into a lent buffer, each its kind byte and its body. A call returns the length; the bytes past it keep their values, and
// so do all on a refusal.
ghost use Rattle.std.specs.Prelude.{◌≡◌, false, not, cond, ◌≤◌};
ghost use Rattle.table.specs.Table.{spare_set, is_whole};
ghost use Rattle.writers.specs.Calls.{whole_checked, record_checked, Wrote};

use bodies::body::{gate_length, job_length, put_gate, put_job, put_witness, witness_length};
use gates::gate::gate_beyond;
use job::job::{Job, job_status};
use records::record::Record;
use refusal::refusal::table_status;
use rowwise::witness::witness_unfit;
use stepping::stepping::is_ended;
use table::table::is_whole;
use types::gate::Gate;
use types::refusal::Refusal;
use types::table::Table;
use types::witness::Witness;
use writing::length::table_length;
use writing::put::{put_kind, put_table};

// Returns the kind byte of a table's record, by whether every row is cared for.
fn kind_for(table: Table, whole: u8, partial: u8) -> u8
    requires { (table.n ≤ 8) × (spare_set table.n table.cares ≡ false) }
    ensures { result ≡ cond (not (is_whole table)) partial whole }
{
    if is_whole(table) { whole } else { partial }
}

// Returns whether a table keeps its format and every row is cared for, or its refusal: 2, 3, 16.
fn whole_status(table: Table) -> Result<(), Refusal>
    ensures { result ≡ whole_checked table }
{
    table_status(table)?;
    if !is_whole(table) {
        return Err(Refusal::Care);
    }
    Ok(())
}

// Returns whether a table with a gate can be written, or its refusal: 2, 3, 16, 7.
fn gate_kept(table: Table, gate: Gate) -> Result<(), Refusal>
    ensures { result ≡ record_checked (Record.Gate table gate) }
{
    if gate.n != table.n {
        return Err(Refusal::Inputs);
    }
    whole_status(table)?;
    if gate_beyond(gate) {
        return Err(Refusal::Gate);
    }
    Ok(())
}

// Returns whether a table with a witness can be written, or its refusal: 2, 3, 16, 8.
fn witness_kept(table: Table, witness: Witness) -> Result<(), Refusal>
    ensures { result ≡ record_checked (Record.Witness table witness) }
{
    whole_status(table)?;
    if witness_unfit(table, witness) {
        return Err(Refusal::RowList);
    }
    Ok(())
}

// Writes a table, kind 1, or kind 5 where a row is not cared for. Refusals: 2, 3, 16, 12.
pub fn write_table(table: Table, out: &mut [u8]) -> Result<usize, Refusal>
    ensures { Wrote (Record.Table table) out.old result out.new }
{
    table_status(table)?;
    if out.len() < 1 + table_length(table) {
        return Err(Refusal::Room);
    }
    let at = put_kind(out, 0, kind_for(table, 1, 5));
    Ok(put_table(out, at, table))
}

// Writes a table with a gate, kind 2. Refusals: 2, 3, 16, 7, 12.
pub fn write_gate(table: Table, gate: Gate, out: &mut [u8]) -> Result<usize, Refusal>
    ensures { Wrote (Record.Gate table gate) out.old result out.new }
{
    gate_kept(table, gate)?;
    if out.len() < 1 + gate_length(table, gate) {
        return Err(Refusal::Room);
    }
    let at = put_kind(out, 0, 2);
    Ok(put_gate(out, at, table, gate))
}

// Writes a table with a witness, kind 3. Refusals: 2, 3, 16, 8, 12.
pub fn write_witness(table: Table, witness: Witness, out: &mut [u8]) -> Result<usize, Refusal>
    ensures { Wrote (Record.Witness table witness) out.old result out.new }
{
    witness_kept(table, witness)?;
    if out.len() < 1 + witness_length(table, witness) {
        return Err(Refusal::Room);
    }
    let at = put_kind(out, 0, 3);
    Ok(put_witness(out, at, table, witness))
}

// Returns whether a job keeps the rules of saving: its own, then 13 for one that has ended.
fn save_status(job: Job) -> Result<(), Refusal>
    ensures { result ≡ record_checked (Record.Job job) }
{
    job_status(job)?;
    if is_ended(job.state.stage) {
        return Err(Refusal::Ended);
    }
    Ok(())
}

// Saves an open job, kind 4, or kind 6 where a row is not cared for. Refusals: 2, 3, 16, 9, 13, 12.
pub fn save(job: Job, out: &mut [u8]) -> Result<usize, Refusal>
    ensures { Wrote (Record.Job job) out.old result out.new }
{
    save_status(job)?;
    if out.len() < 1 + job_length(job) {
        return Err(Refusal::Room);
    }
    let at = put_kind(out, 0, kind_for(job.table, 4, 6));
    Ok(put_job(out, at, job))
}
