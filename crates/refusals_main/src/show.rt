// Words, numbers and answers on standard output.
use std::io;
use types::refusal::Refusal;

// Writes a text as it stands.
pub fn word(rt: &impl Print, text: &[u8]) -> io::Result<()> {
    rt.write_all(text)
}

// Ends the line.
pub fn end(rt: &impl Print) -> io::Result<()> {
    word(rt, b"\n")
}

// Writes a text and a number.
pub fn field(rt: &impl Print, text: &[u8], n: u64) -> io::Result<()> {
    word(rt, text)?;
    rt.print(n)
}

// Writes n and the byte of a table that has one.
pub fn table(rt: &impl Print, n: u8, at: usize, byte: u8) -> io::Result<()> {
    field(rt, b"table n ", n as u64)?;
    field(rt, b" byte ", at as u64)?;
    field(rt, b" is ", byte as u64)
}

// Writes n, the weight of a gate that has one, and T.
pub fn gate(rt: &impl Print, n: u8, place: usize, weight: u32, threshold: u32) -> io::Result<()> {
    field(rt, b"gate n ", n as u64)?;
    field(rt, b" place ", place as u64)?;
    field(rt, b" weight ", weight as u64)?;
    field(rt, b" T ", threshold as u64)
}

// Writes a text and yes, no, or the refusal's number.
pub fn answer(rt: &impl Print, text: &[u8], answer: Result<bool, Refusal>) -> io::Result<()> {
    word(rt, text)?;
    match answer {
        Ok(true) => word(rt, b" yes"),
        Ok(false) => word(rt, b" no"),
        Err(refusal) => field(rt, b" ", refusal.number() as u64),
    }
}

// Writes a text, done or the refusal's number, and the word `blank` if all places are idle or 0, as they are taken to be beside a refusal.
pub fn status(
    rt: &impl Print,
    text: &[u8],
    status: Result<(), Refusal>,
    blank: &[u8],
    is_blank: bool,
) -> io::Result<()> {
    word(rt, text)?;
    match status {
        Ok(()) => word(rt, b" done")?,
        Err(refusal) => field(rt, b" ", refusal.number() as u64)?,
    }
    if is_blank {
        word(rt, blank)
    } else {
        word(rt, b" other")
    }
}
