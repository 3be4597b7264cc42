// A witness (document 01, "Table, gate, witness"): counts that show, where they balance, that a table has no gate.

// A count for each row of eight inputs. Rows past the table have count 0.
#[derive(Clone, Copy, PartialEq, Eq)]
pub struct Witness {
    pub counts: [u32; 256],
}
