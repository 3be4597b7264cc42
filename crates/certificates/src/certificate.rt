// A record that was read, looked at: its kind, whether its gate or witness holds, and the value of its table or gate on a row.
ghost use Rattle.std.specs.Prelude.{◌≡◌, [], Ok};
ghost use Rattle.refusal.specs.Refusal.{NoneBroken, and_then};
ghost use Rattle.refusal.specs.TableRules.{table_rules};
ghost use Rattle.records.specs.declared.record.Record.{Record};
ghost use Rattle.records.specs.Record.{table_in};
ghost use Rattle.certificates.specs.Certificate.{check_in, kind_in, value_in};

use cell::checker::{check_gate, check_witness};
use cell::value::{gate_value, table_value};
use records::record::Record;
use results::result::yes_or_no;
use table::table::is_whole;
use types::refusal::Refusal;

// Returns 1 if the gate agrees with its table, or the witness balances, and 0 if not. Refusals: those of reading, 100 for another kind, those
// of the checker.
pub fn check_read(read: Result<Record, Refusal>) -> Result<u32, Refusal>
    ensures { result ≡ and_then read check_in }
{
    match read? {
        Record::Gate(table, gate) => yes_or_no(check_gate(table, gate)),
        Record::Witness(table, witness) => yes_or_no(check_witness(table, witness)),
        Record::Table(_) => Err(Refusal::OtherKind), // it holds no certificate
        Record::Job(_) => Err(Refusal::OtherKind),
    }
}

// Returns the kind, 1 to 6: where a row of the table is not cared for, a table is 5 and a job 6. Refusals: those of reading.
pub fn kind_read(read: Result<Record, Refusal>) -> Result<u32, Refusal>
    requires { (x : Record) → read ≡ Ok x → NoneBroken (table_rules (table_in x) []) }
    ensures { result ≡ and_then read (λ x. Ok (kind_in x)) }
{
    let kind = match read? {
        Record::Table(table) => if is_whole(table) { 1 } else { 5 },
        Record::Gate(_, _) => 2,
        Record::Witness(_, _) => 3,
        Record::Job(job) => if is_whole(job.table) { 4 } else { 6 },
    };
    Ok(kind)
}

// Returns the value of the table or the gate on a row: 0 or 1. Refusals: those of reading, 100 for another kind, those of the value.
pub fn value_read(read: Result<Record, Refusal>, row: u32) -> Result<u32, Refusal>
    ensures { result ≡ and_then read (value_in row) }
{
    match read? {
        Record::Table(table) => yes_or_no(table_value(table, row as usize)),
        Record::Gate(_, gate) => yes_or_no(gate_value(gate, row as usize)),
        Record::Witness(_, _) => Err(Refusal::OtherKind), // it has no value on a row
        Record::Job(_) => Err(Refusal::OtherKind),
    }
}
