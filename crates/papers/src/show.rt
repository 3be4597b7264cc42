// Words and numbers on standard output, each after the first of a line with a space in front. A write that fails gives its error.
use std::io;
use types::inputs::InputKind;
use types::refusal::Refusal;

// Writes a word as it stands.
pub fn word(rt: &impl Print, text: &[u8]) -> io::Result<()> {
    rt.write_all(text)
}

// Writes a space and a number.
pub fn number(rt: &impl Print, n: u64) -> io::Result<()> {
    word(rt, b" ")?;
    rt.print(n)
}

// Writes a space and two numbers with a colon between them.
pub fn pair(rt: &impl Print, x: u64, y: u64) -> io::Result<()> {
    number(rt, x)?;
    word(rt, b":")?;
    rt.print(y)
}

// Writes a space and a signed number.
pub fn signed(rt: &impl Print, x: i32) -> io::Result<()> {
    word(rt, b" ")?;
    rt.print(x)
}

// Writes a space and yes, no, or a refusal's number.
pub fn answer(rt: &impl Print, answer: Result<bool, Refusal>) -> io::Result<()> {
    match answer {
        Ok(true) => word(rt, b" yes"),
        Ok(false) => word(rt, b" no"),
        Err(refusal) => number(rt, refusal.number() as u64),
    }
}

// Writes a space and done, or a refusal's number.
pub fn status(rt: &impl Print, status: Result<(), Refusal>) -> io::Result<()> {
    match status {
        Ok(()) => word(rt, b" done"),
        Err(refusal) => number(rt, refusal.number() as u64),
    }
}

// Writes a space and whether two things are the same.
pub fn same(rt: &impl Print, is_same: bool) -> io::Result<()> {
    if is_same {
        word(rt, b" same")
    } else {
        word(rt, b" other")
    }
}

// Writes a space and the letter of a kind.
pub fn kind(rt: &impl Print, kind: InputKind) -> io::Result<()> {
    word(rt, &[b' ', letter(kind)])
}

// Returns the letter of a kind.
pub fn letter(kind: InputKind) -> u8 {
    match kind {
        InputKind::Idle => b'i',
        InputKind::Rising => b'r',
        InputKind::Falling => b'f',
        InputKind::Binate => b'b',
    }
}
