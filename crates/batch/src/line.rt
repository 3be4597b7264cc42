// The next line of a report, made at the start of a lent buffer.
ghost use Rattle.std.specs.Prelude.{◌≤◌, length};
ghost use Rattle.numbers.specs.Tabulate.{Holds};
ghost use Rattle.correction.specs.Steps.{step_at};
ghost use Rattle.codec.specs.TableField.{table_record_at};
ghost use Rattle.reporting.specs.Lines.{line_room};
ghost use Rattle.reporting.specs.Report.{input_most, Within};
ghost use Rattle.batch.specs.Progress.{Bounded, Made, refusal_of, decided_of, last_of, advance_by, advance};

use crate::progress::{Phase, Progress};
use job::job::Job;
use receiving::record::table_at;
use reporting::line::{last_line, record_line, refusal_line};
use reporting::tally::{Tally, with_record};
use stepping::decided::decided_by;
use types::field::Field;
use types::refusal::Refusal;
use types::table::Table;

// The length of a line, and how far the report is after it.
#[derive(Clone, Copy)]
pub struct Line {
    pub length: usize,
    pub next: Progress,
}

// Makes the last line.
fn last(at: usize, tally: Tally, out: &mut [u8]) -> Line
    requires { Within tally × (line_room ≤ length out.old) }
    ensures made { Made (last_of at tally) out.old out.new result }
    ensures fits { result.length ≤ line_room }
{
    let length = last_line(out, tally);
    Line {
        length,
        next: Progress {
            at,
            tally,
            phase: Phase::Done,
        },
    }
}

// Makes the line of a refusal.
fn refusal(at: usize, tally: Tally, refusal: Refusal, out: &mut [u8]) -> Line
    requires { Within tally × (line_room ≤ length out.old) }
    ensures made { Made (refusal_of at tally refusal) out.old out.new result }
    ensures fits { result.length ≤ line_room }
{
    let length = refusal_line(out, tally.records + 1, refusal.number());
    Line {
        length,
        next: Progress {
            at,
            tally,
            phase: Phase::Last,
        },
    }
}

// Makes the line of a table that was read.
fn decided_line(read: Field<Table>, tally: Tally, steps: &[i16; 2048], out: &mut [u8]) -> Line
    requires { Within tally × (line_room ≤ length out.old) × (read.value.n ≤ 8) × Holds step_at 2048 steps.now }
    ensures made { Made (decided_of tally read) out.old out.new result }
    ensures fits { result.length ≤ line_room }
{
    let table = read.value;
    let job = Job {
        table,
        state: decided_by(table, steps),
    };
    let length = record_line(out, tally.records + 1, job);
    Line {
        length,
        next: Progress {
            at: read.next,
            tally: with_record(tally, job.state.stage, job.state.k),
            phase: Phase::Records,
        },
    }
}

// Makes the line of the record that the report's reader reaches at a position, or of its refusal.
fn record_or_refusal(
    input: &[u8],
    at: usize,
    tally: Tally,
    steps: &[i16; 2048],
    out: &mut [u8],
) -> Line
    requires { Within tally × (line_room ≤ length out.old) × Holds step_at 2048 steps.now }
    ensures made { Made (advance_by at tally (table_record_at input.now at)) out.old out.new result }
    ensures fits { result.length ≤ line_room }
{
    match table_at(input, at) {
        Ok(read) => decided_line(read, tally, steps, out),
        Err(refused) => refusal(at, tally, refused, out),
    }
}

// Makes the next line of the report of an input. `steps` is the table of steps.
pub fn next_line(input: &[u8], progress: Progress, steps: &[i16; 2048], out: &mut [u8]) -> Line
    requires { (length input.now ≤ input_most) × Bounded progress × (line_room ≤ length out.old) × Holds step_at 2048 steps.now }
    ensures made { Made (advance input.now progress) out.old out.new result }
    ensures bounded { Bounded result.next × (result.length ≤ line_room) }
{
    let tally = progress.tally;
    match progress.phase {
        Phase::Records => {
            if progress.at < input.len() {
                record_or_refusal(input, progress.at, tally, steps, out)
            } else {
                last(progress.at, tally, out)
            }
        }
        Phase::Last => last(progress.at, tally, out),
        Phase::Done => Line {
            length: 0,
            next: progress,
        },
    }
}
