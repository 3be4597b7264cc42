// The kinds of a table's inputs.
ghost use Rattle.std.specs.Prelude.{◌≡◌, ◌&&◌, ◌≤◌, ◌<◌};
ghost use Rattle.table.specs.Inputs.{kind_by, input_kind_at, kinds_of};
ghost use Rattle.function.specs.Turns.{turns_at, first_turn};
ghost use Rattle.table.specs.Table.{bit_at, function_of};

use std::array;
use table::table::{row_bit, row_count};
use types::inputs::InputKind;
use types::table::Table;

// Whether two rows are cared for.
fn both_cared(cares: &[u8; 32], row: usize, partner: usize) -> bool
    requires { (row < 256) × (partner < 256) }
    ensures { result ≡ (bit_at cares.now row && bit_at cares.now partner) }
{
    row_bit(cares, row) && row_bit(cares, partner)
}

// Whether making the place's input true in a row without it turns the value to `to`, and both rows are cared for. The table's bits are lent.
fn turns_at(values: &[u8; 32], cares: &[u8; 32], to: bool, place: usize, row: usize) -> bool
    requires { (place < 8) × (row < 256) }
    ensures { (t : Table) → values.now ≡ t.bytes → cares.now ≡ t.cares → result ≡ turns_at (function_of t) to place row }
{
    if (row >> place) % 2 == 1 {
        return false;
    }
    let partner = row + (1usize << place);
    if row_bit(values, row) == to {
        return false;
    }
    if row_bit(values, partner) != to {
        return false;
    }
    both_cared(cares, row, partner)
}

// Returns the lowest row in which the place's input turns the value to `to`.
pub fn first_turn(table: Table, to: bool, place: usize) -> Option<usize>
    requires { (table.n ≤ 8) × (place < 8) }
    ensures { result ≡ first_turn (function_of table) to place }
{
    let rows = row_count(table.n);
    for row in 0..rows {
        if turns_at(&table.bytes, &table.cares, to, place, row) {
            return Some(row);
        }
    }
    None
}

// Returns the kind by whether the input rises somewhere and whether it falls somewhere.
fn kind_by(rises: bool, falls: bool) -> InputKind
    ensures { result ≡ kind_by rises falls }
{
    match (rises, falls) {
        (true, true) => InputKind::Binate,
        (true, false) => InputKind::Rising,
        (false, true) => InputKind::Falling,
        (false, false) => InputKind::Idle,
    }
}

// Returns the kind of the input at a place.
pub fn input_kind_at(table: Table, place: usize) -> InputKind
    requires { (table.n ≤ 8) × (place < 8) }
    ensures { result ≡ input_kind_at table place }
{
    if (table.n as usize) <= place {
        return InputKind::Idle;
    }
    let rises = first_turn(table, true, place).is_some();
    let falls = first_turn(table, false, place).is_some();
    kind_by(rises, falls)
}

// Returns the kinds of all eight places.
pub fn all_kinds(table: Table) -> [InputKind; 8]
    requires { table.n ≤ 8 }
    ensures { result ≡ kinds_of table }
{
    array::from_fn(|place| input_kind_at(table, place))
}
