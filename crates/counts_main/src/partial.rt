// Partial tables of up to three inputs, by number.
use types::table::Table;

// The rows as bits: those that are cared for, and the true ones among them.
#[derive(Clone, Copy)]
pub struct Rows {
    pub cares: u8,
    pub values: u8,
}

// Returns the rows of a number. Row r is its digit r in base three, lowest first: 0 where the row is not cared for, 1 where it is false, and 2
// where it is true.
pub fn rows_of(number: u32) -> Rows {
    let mut cares: u8 = 0;
    let mut values: u8 = 0;
    let mut rest = number;
    for row in 0..8u8 {
        let bit = 1u8 << row;
        if rest % 3 != 0 {
            cares = cares | bit;
        }
        if rest % 3 == 2 {
            values = values | bit;
        }
        rest = rest / 3;
    }
    Rows { cares, values }
}

// Returns the table of n inputs with these rows.
pub fn table(n: u8, rows: Rows) -> Table {
    let mut bytes = [0u8; 32];
    let mut cares = [0u8; 32];
    bytes[0] = rows.values;
    cares[0] = rows.cares;
    Table { n, bytes, cares }
}
