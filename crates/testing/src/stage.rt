// The stage of a job by its letter.
use papers::show::word;
use std::io;
use types::stage::Stage;

// Returns the letter of a stage.
pub fn letter(stage: Stage) -> u8 {
    match stage {
        Stage::Open => b'O',
        Stage::Found => b'F',
        Stage::Looped => b'L',
        Stage::Binate => b'B',
    }
}

// Returns the stage of a letter; it is open for any other one.
pub fn of(letter: u8) -> Stage {
    match letter {
        b'F' => Stage::Found,
        b'L' => Stage::Looped,
        b'B' => Stage::Binate,
        _ => Stage::Open,
    }
}

// Writes a stage's letter.
pub fn show(rt: &impl Print, stage: Stage) -> io::Result<()> {
    word(rt, b" stage ")?;
    word(rt, &[letter(stage)])
}
