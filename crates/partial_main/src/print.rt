// The parts of an answer on standard output.
use papers::show;
use std::io;
use types::inputs::InputKind;

// Writes the letters of all eight kinds.
pub fn kinds(rt: &impl Print, kinds: [InputKind; 8]) -> io::Result<()> {
    for kind in &kinds {
        show::kind(rt, *kind)?;
    }
    Ok(())
}

// Writes all eight numbers.
pub fn numbers(rt: &impl Print, q: [i32; 8]) -> io::Result<()> {
    for parameter in &q {
        show::signed(rt, *parameter)?;
    }
    Ok(())
}
