// A record written into a buffer, all of whose bytes were the same before.
use crate::record;
use records::record::Record;
use testing::parts::{first_bytes, least};
use types::refusal::Refusal;

// The length of the buffer: more than the longest record takes.
pub const ROOM: usize = 1300;

// The value of each byte before a call.
const BLANK: u8 = 0xA5;

// A buffer after a call, the length written, and the number of a refusal or 0.
#[derive(Clone, Copy)]
pub struct Buffer {
    pub bytes: [u8; 1300],
    pub length: usize,
    pub number: u8,
}

// Writes a record into the first bytes of a buffer, or into all where it has no more.
fn write_part(record: Record, out: &mut [u8], room: usize) -> Result<usize, Refusal> {
    let end = least(room, out.len());
    record::write(record, &mut out[0..end])
}

// Writes a record into the first bytes of a blank buffer.
pub fn written(record: Record, room: usize) -> Buffer {
    let mut bytes = [BLANK; 1300];
    let written = write_part(record, &mut bytes, room);
    Buffer {
        bytes,
        length: written.unwrap_or(0),
        number: record::number_of(written.and(Ok(()))),
    }
}

// Whether a buffer holds some bytes at its start, and is blank after them.
fn holds(buffer: [u8; 1300], bytes: &[u8]) -> bool {
    for at in 0..ROOM {
        let mut expected = BLANK;
        if at < bytes.len() {
            expected = bytes[at];
        }
        if buffer[at] != expected {
            return false;
        }
    }
    true
}

// Whether a buffer holds what a call must have written there: the bytes of a record or, after a refusal, nothing.
pub fn is_right(buffer: Buffer, bytes: &[u8]) -> bool {
    let found = buffer.bytes;
    if buffer.number == 0 {
        buffer.length == bytes.len() && holds(found, bytes)
    } else {
        holds(found, first_bytes(bytes, 0))
    }
}
