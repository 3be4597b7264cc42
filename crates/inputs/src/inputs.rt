// The kinds and Chow's parameters of a table's inputs, as bytes.
ghost use Rattle.std.specs.Prelude.{◌≡◌, ◌<◌, length, get_or};
ghost use Rattle.writers.specs.Calls.{fitted, WroteBytes};
ghost use Rattle.inputs.specs.Inputs.{input_byte, input_bytes, word, chow_bytes};

use types::inputs::InputKind;
use types::refusal::Refusal;
use writing::length::signed_code;

// Returns the byte of a kind: 0 idle, 1 rising, 2 falling, 3 binate.
fn input_byte(kind: InputKind) -> u8
    ensures { result ≡ input_byte kind }
{
    match kind {
        InputKind::Idle => 0,
        InputKind::Rising => 1,
        InputKind::Falling => 2,
        InputKind::Binate => 3,
    }
}

// Writes the bytes of eight kinds. Returns 8, or the refusal: 12.
pub fn put_kinds(kinds: [InputKind; 8], out: &mut [u8]) -> Result<u32, Refusal>
    ensures { WroteBytes (fitted (length out.old) (input_bytes kinds)) out.old result out.new }
{
    if out.len() < 8 {
        return Err(Refusal::Room);
    }
    for (place, kind) in kinds.iter().enumerate() {
        out[place] = input_byte(*kind);
    }
    Ok(8)
}

// Returns a signed number as two bytes hold it: a negative z as 65536 + z. Its code in records tells the sign by its last bit.
fn word_of(z: i32) -> u32
    ensures { result ≡ word z }
{
    let code = signed_code(z);
    let size = code / 2 % 65536;
    if code % 2 == 0 { size } else { 65535 - size }
}

// Returns the byte at a position of the two bytes of each q, low byte first.
fn chow_byte(q: [i32; 8], at: usize) -> u8
    requires { at < 16 }
    ensures { result ≡ get_or (chow_bytes q) at 0 }
{
    let code = word_of(q[at / 2]);
    if at % 2 == 0 {
        (code % 256) as u8
    } else {
        (code / 256) as u8
    }
}

// Writes the bytes of eight q. Returns 16, or the refusal: 12.
pub fn put_chow(q: [i32; 8], out: &mut [u8]) -> Result<u32, Refusal>
    ensures { WroteBytes (fitted (length out.old) (chow_bytes q)) out.old result out.new }
{
    if out.len() < 16 {
        return Err(Refusal::Room);
    }
    for at in 0..16 {
        out[at] = chow_byte(q, at);
    }
    Ok(16)
}
