// A record (document 01, "Records"; document 02, §3).
use job::job::Job;
use types::gate::Gate;
use types::table::Table;
use types::witness::Witness;

// A table (kinds 1 and 5); a table with a gate (2); with a witness (3); an open job (4 and 6).
#[derive(Clone, Copy, PartialEq, Eq)]
pub enum Record {
    Table(Table),
    Gate(Table, Gate),
    Witness(Table, Witness),
    Job(Job),
}
