// One line of a list: a record of the set, a byte string to be read, or what a writer refuses.
use crate::buffer::{Buffer, ROOM, is_right};
use crate::{buffer, record, spoiled};
use papers::show;
use papers::text::{digit, word};
use receiving::record::read;
use records::record::Record;
use std::io;
use testing::parts::first_bytes;
use testing::tally;

// Returns the digit in base sixteen of a value's last four bits.
fn hex_digit(value: u8) -> u8 {
    let low = value % 16;
    if low < 10 {
        b'0' + low
    } else {
        b'a' + low - 10
    }
}

// Writes bytes in base sixteen.
fn hex(rt: &impl Print, bytes: &[u8]) -> io::Result<()> {
    for byte in bytes {
        show::word(rt, &[hex_digit(*byte / 16), hex_digit(*byte)])?;
    }
    Ok(())
}

// Prints the first line of a record: its name, its letter, its length and its bytes.
fn show_bytes(rt: &impl Print, line: &[u8], bytes: &[u8]) -> io::Result<()> {
    show::word(rt, word(line, 0))?;
    show::word(rt, b" ")?;
    show::word(rt, word(line, 3))?;
    show::number(rt, bytes.len() as u64)?;
    show::word(rt, b" ")?;
    hex(rt, bytes)?;
    show::word(rt, b"\n")
}

// Prints whether a record's bytes are read as the record, and what comes of reading them from other positions, and of writing the
// record into buffers of each length.
fn show_whole(rt: &impl Print, record: Record, bytes: &[u8]) -> io::Result<()> {
    show::word(rt, b" read")?;
    show::same(rt, read(bytes) == Ok(record))?;
    tally::print(rt, b" from", spoiled::tails(bytes))?;
    tally::print(rt, b" room", spoiled::rooms(record, bytes))
}

// Ends a line with what comes of reading a record cut and changed.
fn show_spoiled(rt: &impl Print, bytes: [u8; 1300], length: usize) -> io::Result<()> {
    tally::print(rt, b" cut", spoiled::cut(&bytes, length))?;
    tally::print(rt, b" changed", spoiled::changes(bytes, length))?;
    show::word(rt, b"\n")
}

// Prints both lines of a record.
pub fn record(rt: &impl Print, line: &[u8]) -> io::Result<()> {
    let record = record::of_line(line);
    let written = buffer::written(record, ROOM);
    let bytes = written.bytes;
    let length = written.length;
    show_bytes(rt, line, first_bytes(&bytes, length))?;
    show::word(rt, word(line, 0))?;
    show_whole(rt, record, first_bytes(&bytes, length))?;
    show_spoiled(rt, bytes, length)
}

// Ends a line, with a word where something is wrong.
fn end_line(rt: &impl Print, is_right: bool) -> io::Result<()> {
    if !is_right {
        show::word(rt, b" wrong")?;
    }
    show::word(rt, b"\n")
}

// Prints the number that reading the first bytes gives, 0 for a record.
fn show_reading(rt: &impl Print, string: &[u8; 64], length: usize) -> io::Result<()> {
    let bytes = first_bytes(string, length);
    let answer = read(bytes);
    show::word(rt, b":")?;
    show::number(rt, record::number_of(answer.and(Ok(()))) as u64)?;
    end_line(rt, spoiled::is_right_reading(answer, bytes))
}

// Prints a line of a name and a byte string in base sixteen, and the number that reading the string gives.
pub fn string(rt: &impl Print, line: &[u8]) -> io::Result<()> {
    let digits = word(line, 1);
    let mut bytes = [0u8; 64];
    let end = digits.len().min(128);
    for at in 0..end {
        bytes[at / 2] = bytes[at / 2] << 4 | digit(digits[at]);
    }
    show::word(rt, line)?;
    show_reading(rt, &bytes, end / 2)
}

// Whether writing a record into a long buffer and into none left what it must.
fn are_right(full: Buffer, empty: Buffer) -> bool {
    let bytes = full.bytes;
    let own = first_bytes(&bytes, full.length);
    is_right(full, own) && is_right(empty, own)
}

// Prints a line, and the numbers that writing its record into a long buffer and into none gives.
pub fn refusal(rt: &impl Print, line: &[u8]) -> io::Result<()> {
    let record = record::of_line(line);
    let full = buffer::written(record, ROOM);
    let empty = buffer::written(record, 0);
    show::word(rt, line)?;
    show::word(rt, b":")?;
    show::number(rt, full.number as u64)?;
    show::number(rt, empty.number as u64)?;
    end_line(rt, are_right(full, empty))
}
