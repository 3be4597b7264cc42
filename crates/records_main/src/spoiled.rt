// The bytes of a record read as they are, cut, from another position and changed, and the record written into buffers of each length.
ghost use Rattle.std.specs.Prelude.{◌<◌, ◌≤◌};

use crate::buffer::{ROOM, is_right};
use crate::{buffer, record};
use receiving::record::read;
use records::record::Record;
use testing::parts::{first_bytes, least, rest};
use testing::tally;
use testing::tally::Tally;
use types::refusal::Refusal;

// Whether what reading some bytes gave is right: a record is written as the same bytes.
pub fn is_right_reading(answer: Result<Record, Refusal>, bytes: &[u8]) -> bool {
    match answer {
        Ok(record) => {
            let written = buffer::written(record, ROOM);
            written.number == 0 && is_right(written, bytes)
        }
        Err(_) => true,
    }
}

// Counts what reading some bytes gave.
fn counted(tally: Tally, answer: Result<Record, Refusal>, bytes: &[u8]) -> Tally {
    let number = record::number_of(answer.and(Ok(())));
    tally::count(tally, number, is_right_reading(answer, bytes))
}

// Counts what reading the first bytes gives.
fn counted_first(tally: Tally, bytes: &[u8; 1300], length: usize) -> Tally {
    let own = first_bytes(bytes, length);
    counted(tally, read(own), own)
}

// Reads the first bytes, of each number up to the length and two more.
pub fn cut(bytes: &[u8; 1300], length: usize) -> Tally {
    let last = least(length, ROOM) + 2;
    let mut tally = tally::none();
    for cut in 0..last + 1 {
        tally = counted_first(tally, bytes, cut);
    }
    tally
}

// Reads from a position to the end; past the end there is nothing.
fn read_from(bytes: &[u8], at: usize) -> Result<Record, Refusal> {
    if at < bytes.len() {
        return read(&bytes[at..]);
    }
    let end = bytes.len();
    read(&bytes[end..])
}

// Reads from each position up to two past the end.
pub fn tails(bytes: &[u8]) -> Tally {
    let last = least(bytes.len(), ROOM) + 2;
    let mut tally = tally::none();
    for at in 0..last + 1 {
        tally = counted(tally, read_from(bytes, at), rest(bytes, at));
    }
    tally
}

// Returns how far apart the values of a changed byte are: 1 in a short record, so that all come; else three come, the next one, the
// one before and that with bit 7 turned.
fn stride(length: usize) -> usize
    ensures { (1 ≤ result) × (result ≤ 127) }
{
    if length <= 9 { 1 } else { 127 }
}

// Reads a record with one byte changed.
fn changed(tally: Tally, original: [u8; 1300], length: usize, at: usize) -> Tally
    requires { at < 1300 }
{
    let mut next = tally;
    let mut bytes = original;
    let step = stride(length);
    for added in (1..256usize).step_by(step) {
        bytes[at] = original[at].wrapping_add(added as u8);
        next = counted_first(next, &bytes, length);
    }
    next
}

// Reads a record with each byte changed, one at a time.
pub fn changes(original: [u8; 1300], length: usize) -> Tally {
    let end = least(length, ROOM);
    let mut tally = tally::none();
    for at in 0..end {
        tally = changed(tally, original, length, at);
    }
    tally
}

// Writes a record into buffers of each length up to two more than it takes.
pub fn rooms(original: Record, bytes: &[u8]) -> Tally {
    let last = least(bytes.len(), ROOM) + 2;
    let mut tally = tally::none();
    for room in 0..last + 1 {
        let written = buffer::written(original, room);
        tally = tally::count(tally, written.number, is_right(written, bytes));
    }
    tally
}
