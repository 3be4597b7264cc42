// One input, made from a line: a name, then parts, each of which is a number and the bytes, in base sixteen, that come so many times.
use papers::show;
use papers::text::{digit, number, word};
use printing::report::print_report;
use std::io;
use testing::parts::first_bytes;

// The length of the buffer: more than the longest input of the lists.
const ROOM: usize = 65600;

// The most words of a line, with its name.
const WORDS: usize = 9;

// Puts a byte at a position, if that is in the buffer, and returns the position after it.
fn put_byte(out: &mut [u8; 65600], at: usize, byte: u8) -> usize {
    if at < ROOM {
        out[at] = byte;
        return at + 1;
    }
    at
}

// Puts bytes in base sixteen.
fn put_bytes(out: &mut [u8; 65600], at: usize, digits: &[u8]) -> usize {
    let mut next = at;
    for pair in digits.chunks_exact(2) {
        next = put_byte(out, next, digit(pair[0]) << 4 | digit(pair[1]));
    }
    next
}

// Puts bytes in base sixteen a number of times.
fn put_part(out: &mut [u8; 65600], at: usize, times: u16, digits: &[u8]) -> usize {
    let mut next = at;
    for _ in 0..times {
        next = put_bytes(out, next, digits);
    }
    next
}

// Puts the parts of a line, from the start on, and returns their length.
fn put_parts(out: &mut [u8; 65600], line: &[u8]) -> usize {
    let mut next: usize = 0;
    for k in (1..WORDS).step_by(2) {
        let times = number(word(line, k));
        next = put_part(out, next, times, word(line, k + 1));
    }
    next
}

// Prints the report of the first bytes.
fn print_first(rt: &impl Print, bytes: &[u8; 65600], length: usize) -> io::Result<()> {
    print_report(rt, first_bytes(bytes, length))
}

// Prints a line, and the report of its input.
pub fn run(rt: &impl Print, line: &[u8]) -> io::Result<()> {
    let mut input = [0u8; 65600];
    let length = put_parts(&mut input, line);
    show::word(rt, line)?;
    show::word(rt, b"\n")?;
    print_first(rt, &input, length)
}
