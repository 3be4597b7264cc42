// A truth table (document 01, "Table, gate, witness"; document 02, §3).

// n inputs, and for each of the 2^n rows a bit of `bytes`, its value, and a bit of `cares`, whether the row is cared for: row r is bit r mod 8 of
// byte r div 8. The other bits are 0, and so is the value of a row that is not cared for.
#[derive(Clone, Copy, PartialEq, Eq)]
pub struct Table {
    pub n: u8,
    pub bytes: [u8; 32],
    pub cares: [u8; 32],
}
