// Tables, gates and witnesses that hold 0 but in one place.
ghost use Rattle.std.specs.Prelude.{◌<◌};

use cell::whole::whole_table;
use types::gate::Gate;
use types::table::Table;
use types::witness::Witness;

// Returns the table with one byte, and every row cared for.
pub fn table(n: u8, at: usize, byte: u8) -> Table
    requires { at < 32 }
{
    let mut bytes = [0u8; 32];
    bytes[at] = byte;
    whole_table(n, bytes)
}

// Returns the gate with one weight, and T.
pub fn gate(n: u8, place: usize, weight: i32, threshold: i32) -> Gate
    requires { place < 8 }
{
    let mut weights = [0i32; 8];
    weights[place] = weight;
    Gate {
        n,
        weights,
        threshold,
    }
}

// Returns the witness with one count.
pub fn witness(row: usize, count: u32) -> Witness
    requires { row < 256 }
{
    let mut counts = [0u32; 256];
    counts[row] = count;
    Witness { counts }
}
