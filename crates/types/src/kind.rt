// The kind byte of a record (document 01, "Records"; document 02, §3).

// A record's family, by what follows its table: nothing, a gate, a witness, or the numbers of an open job.
#[derive(Clone, Copy, PartialEq, Eq)]
pub enum Family {
    Tables,
    Gates,
    Witnesses,
    Jobs,
}

// What a kind byte says: the family, and whether care bytes follow the value bytes of the table.
#[derive(Clone, Copy, PartialEq, Eq)]
pub struct Head {
    pub family: Family,
    pub cares: bool,
}
