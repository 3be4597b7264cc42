// A record from a line, and written. The line is in the form that `testing::make` reads. Its letter says what of the job is the record: T
// the table, G the table with the gate whose weights and T are v, W the table with the witness whose counts are the job's, else the job
// after one carry-on by the line's budget. In the place of the row stands the gate's n.
use papers::text::{first, word};
use records::record::Record;
use testing::make;
use types::gate::Gate;
use types::refusal::Refusal;
use types::vector::Vector;
use types::witness::Witness;
use writers::write::{save, write_gate, write_table, write_witness};

// Returns the gate of n inputs with the weights and T of a vector.
fn gate_of(n: u8, v: Vector) -> Gate {
    let weights = v.a;
    Gate {
        n,
        weights,
        threshold: v.b,
    }
}

// Returns the record of a line.
pub fn of_line(line: &[u8]) -> Record {
    let made = make::job(line);
    match first(word(line, 3)) {
        b'T' => Record::Table(made.table),
        b'G' => {
            let n = (make::row(line) % 256) as u8;
            Record::Gate(made.table, gate_of(n, made.state.v))
        }
        b'W' => {
            let counts = made.state.counts;
            Record::Witness(made.table, Witness { counts })
        }
        _ => Record::Job(made.carry_on(make::budget(line)).job),
    }
}

// Writes a record.
pub fn write(record: Record, out: &mut [u8]) -> Result<usize, Refusal> {
    match record {
        Record::Table(table) => write_table(table, out),
        Record::Gate(table, gate) => write_gate(table, gate, out),
        Record::Witness(table, witness) => write_witness(table, witness, out),
        Record::Job(job) => save(job, out),
    }
}

// Returns the number of a refusal, or 0.
pub fn number_of(status: Result<(), Refusal>) -> u8 {
    match status {
        Ok(()) => 0,
        Err(refusal) => refusal.number(),
    }
}
