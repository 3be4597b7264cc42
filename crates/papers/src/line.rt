// One function: a line with the name, n and the table, then G, T and the weights of a gate that realises the table, or N and the rows of a
// witness that balances with count 1 on each. A table is its value bytes in base sixteen; one with a row that is not cared for has a
// stroke and its care bytes after them.
ghost use Rattle.std.specs.Prelude.{◌≤◌, length};

use crate::scan::find;
use crate::text::{digit, number, word};
use cell::whole::whole_table;
use types::table::Table;

// Returns where the line ends that starts at a place: its line feed, or the end of all lines.
pub fn line_end(lines: &[u8], at: usize) -> usize
    requires { at ≤ length lines.now }
    ensures { (at ≤ result) × (result ≤ length lines.now) }
{
    find(lines, at, lines.len(), b'\n')
}

// Returns a line without the line feed that ends it.
pub fn text_of(line: &[u8]) -> &[u8] {
    line.strip_suffix(b"\n").unwrap_or(line)
}

// Returns the bytes that digits in base sixteen spell, up to 32, and zeros behind them.
fn bytes_of(digits: &[u8]) -> [u8; 32] {
    let mut bytes = [0u8; 32];
    for at in 0..digits.len().min(64) {
        bytes[at / 2] = bytes[at / 2] << 4 | digit(digits[at]);
    }
    bytes
}

// Returns the line's table.
pub fn table_of(line: &[u8]) -> Table {
    let n = (number(word(line, 1)) % 256) as u8;
    let table = word(line, 2);
    let stroke = find(table, 0, table.len(), b'/');
    let bytes = bytes_of(&table[0..stroke]);
    if stroke == table.len() {
        return whole_table(n, bytes);
    }
    let after = stroke + 1;
    let cares = bytes_of(&table[after..]);
    Table { n, bytes, cares }
}
