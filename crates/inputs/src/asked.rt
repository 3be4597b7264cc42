// What is asked of a table's inputs: their kinds, or Chow's parameters.
ghost use Rattle.std.specs.Prelude.{[], length};
ghost use Rattle.refusal.specs.Refusal.{NoneBroken};
ghost use Rattle.refusal.specs.TableRules.{table_rules};
ghost use Rattle.writers.specs.Calls.{fitted, WroteBytes};
ghost use Rattle.inputs.specs.Inputs.{asked_bytes};

use crate::inputs::{put_chow, put_kinds};
use rowwise::inputs::all_kinds;
use sides::chow::all_chow;
use types::refusal::Refusal;
use types::table::Table;

// Kept an enum: a closure in its place would ask for a law of its own, and the definition (`asked_bytes`) goes by the same two cases.
#[derive(Clone, Copy, PartialEq, Eq)]
pub enum Asked {
    Kinds,
    Chow,
}

// Writes what is asked of a table. Returns the length, or the refusal: 12.
pub fn put_asked(asked: Asked, table: Table, out: &mut [u8]) -> Result<u32, Refusal>
    requires { NoneBroken (table_rules table []) }
    ensures { WroteBytes (fitted (length out.old) (asked_bytes asked table)) out.old result out.new }
{
    match asked {
        Asked::Kinds => put_kinds(all_kinds(table), out),
        Asked::Chow => put_chow(all_chow(table), out),
    }
}
