// The lines of a report, each made at the start of a lent buffer that has room for every line. The functions return its length.
ghost use Rattle.std.specs.Prelude.{◌≡◌, ◌≤◌, ◌<◌, length};
ghost use Rattle.codec.specs.Written.{Room, Put};
ghost use Rattle.reporting.specs.Lines.{verdict_text, record_line, refusal_line, too_long_line, mean_tenths, mean_text, last_line, line_room};
ghost use Rattle.reporting.specs.Report.{input_most, sum_most, Within};

use crate::tally::Tally;
use job::job::Job;
use machine::vector::vector_gate;
use notation::gate::put_gate;
use notation::witness::put_witness;
use text::decimal::put_decimal;
use text::field::{put_byte, put_letter, put_number};
use types::stage::Stage;

// The room that every line fits into.
pub const LINE_ROOM: usize = 4096;

// Writes what a job's stage has to say.
#[tactic(auto, unfolding(crate::specs::Lines::open_text))]
fn put_verdict(out: &mut [u8], at: usize, job: Job) -> usize
    requires { (job.table.n ≤ 8) × Room out.old at (verdict_text job.state.stage job) }
    ensures { Put out.old at (verdict_text job.state.stage job) out.new result }
{
    let state = &job.state;
    match state.stage {
        Stage::Open => {
            let here = put_letter(out, at, b'S');
            put_number(out, here, state.k as u64)
        }
        Stage::Found => put_gate(out, at, state.k, vector_gate(job.table.n, state.v)),
        Stage::Looped | Stage::Binate => put_witness(out, at, state.k, job.table, &state.counts),
    }
}

// Makes the line of a record: position, n, then G, N or S.
pub fn record_line(out: &mut [u8], position: u64, job: Job) -> usize
    requires { (job.table.n ≤ 8) × (line_room ≤ length out.old) }
    ensures put { Put out.old 0 (record_line position job) out.new result }
    ensures upper_bound { result ≤ line_room }
{
    let mut here = put_decimal(out, 0, position);
    here = put_number(out, here, job.table.n as u64);
    here = put_verdict(out, here, job);
    put_byte(out, here, b'\n')
}

// Makes the line of a refusal: position, R, number.
#[tactic(auto, using(text::proofs::DecimalLaws::decimal_twenty), unfolding(crate::specs::Lines::refusal_line))]
pub fn refusal_line(out: &mut [u8], position: u64, number: u8) -> usize
    requires { line_room ≤ length out.old }
    ensures put { Put out.old 0 (refusal_line position number) out.new result }
    ensures upper_bound { result ≤ line_room }
{
    let mut here = put_decimal(out, 0, position);
    here = put_letter(out, here, b'R');
    here = put_number(out, here, number as u64);
    put_byte(out, here, b'\n')
}

// Returns the mean of K in tenths, rounded half to even: a tenth more past the half, and on it if the whole tenths are odd. For odd ones
// `below % 2` is 1, and turns the test `gates < twice` into `gates <= twice`.
fn mean_tenths(gates: u64, sum: u64) -> u64
    requires { (0 < gates) × (gates ≤ input_most) × (sum ≤ sum_most) }
    ensures { result ≡ mean_tenths gates sum }
{
    let below = 10 * sum / gates;
    let twice = 2 * (10 * sum % gates);
    if gates < twice + below % 2 {
        below + 1
    } else {
        below
    }
}

// Writes the mean of K in tenths, or "-" if there is none.
fn put_mean(out: &mut [u8], at: usize, gates: u64, sum: u64) -> usize
    requires { (gates ≤ input_most) × (sum ≤ sum_most) × Room out.old at (mean_text gates sum) }
    ensures { Put out.old at (mean_text gates sum) out.new result }
{
    if gates == 0 {
        return put_byte(out, at, b'-');
    }
    let tenths = mean_tenths(gates, sum);
    let mut here = put_decimal(out, at, tenths / 10);
    here = put_byte(out, here, b'.');
    put_decimal(out, here, tenths % 10)
}

// Makes the last line: records read whole, the numbers of G, N and S, and the mean.
#[tactic(auto, using(text::proofs::DecimalLaws::decimal_twenty, crate::proofs::RoomLaws::mean_most), unfolding(crate::specs::Lines::last_line))]
pub fn last_line(out: &mut [u8], tally: Tally) -> usize
    requires { Within tally × (line_room ≤ length out.old) }
    ensures put { Put out.old 0 (last_line tally) out.new result }
    ensures upper_bound { result ≤ line_room }
{
    let mut here = put_decimal(out, 0, tally.records);
    here = put_number(out, here, tally.gates);
    here = put_number(out, here, tally.witnesses);
    here = put_number(out, here, tally.opens);
    here = put_byte(out, here, b' ');
    here = put_mean(out, here, tally.gates, tally.sum);
    put_byte(out, here, b'\n')
}

// Makes the only line of an input that is too long.
pub fn too_long_line(out: &mut [u8]) -> usize
    requires { line_room ≤ length out.old }
    ensures { Put out.old 0 too_long_line out.new result }
{
    out[..5].copy_from_slice(b"R 15\n");
    5
}
