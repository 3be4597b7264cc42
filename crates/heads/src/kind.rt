// The kind byte of a record.
ghost use Rattle.std.specs.Prelude.{◌≡◌, true, false};
ghost use Rattle.codec.specs.Kind.{every_kind, tables_alone, head, head_among, kind_at};
ghost use Rattle.heads.specs.Heads.{taken_by};

use types::field::Field;
use types::kind::{Family, Head};
use types::refusal::Refusal;

// The kinds that a caller takes: every kind, as a single record may have, or those of a table alone, as in a report. Kept an enum: a closure
// in its place would ask for a law of its own, and the definition (`taken_by`) goes by the same two cases.
#[derive(Clone, Copy, PartialEq, Eq)]
pub enum Takes {
    Every,
    Tables,
}

// Returns what the byte of a family says whose tables have every row cared for.
fn plain(family: Family) -> Head
    ensures { result ≡ head family false }
{
    Head {
        family,
        cares: false,
    }
}

// Returns what the byte of a family says whose tables have a row that is not cared for.
fn partial(family: Family) -> Head
    ensures { result ≡ head family true }
{
    Head {
        family,
        cares: true,
    }
}

// Returns what a kind byte says. Refusal: 5.
#[tactic(auto, unfolding(codec::specs::Kind::head_among))]
fn any_kind(byte: u8) -> Result<Head, Refusal>
    ensures { result ≡ head_among every_kind byte }
{
    match byte {
        1 => Ok(plain(Family::Tables)),
        2 => Ok(plain(Family::Gates)),
        3 => Ok(plain(Family::Witnesses)),
        4 => Ok(plain(Family::Jobs)),
        5 => Ok(partial(Family::Tables)),
        6 => Ok(partial(Family::Jobs)),
        _ => Err(Refusal::Kind),
    }
}

// Returns what the kind byte of a table alone says. Refusal: 5.
#[tactic(auto, unfolding(codec::specs::Kind::head_among))]
fn table_kind(byte: u8) -> Result<Head, Refusal>
    ensures { result ≡ head_among tables_alone byte }
{
    match byte {
        1 => Ok(plain(Family::Tables)),
        5 => Ok(partial(Family::Tables)),
        _ => Err(Refusal::Kind),
    }
}

// Returns what a kind byte says among the kinds that a caller takes. Refusal: 5.
fn taken_kind(takes: Takes, byte: u8) -> Result<Head, Refusal>
    ensures { result ≡ head_among (taken_by takes) byte }
{
    match takes {
        Takes::Every => any_kind(byte),
        Takes::Tables => table_kind(byte),
    }
}

// Reads the kind byte at a position. Refusals: 1, 5.
pub fn read_kind(bytes: &[u8], at: usize, takes: Takes) -> Result<Field<Head>, Refusal>
    ensures { result ≡ kind_at (taken_by takes) bytes.now at }
{
    if bytes.len() <= at {
        return Err(Refusal::EndsEarly);
    }
    let value = taken_kind(takes, bytes[at])?;
    Ok(Field {
        value,
        next: at + 1,
    })
}
