// Records, and what follows a record's kind byte, read from a slice, and the end: tables, gates, witnesses and open jobs. A whole record is read in
// `receiving`.
#![tactic(auto)]

pub mod read;
pub mod record;
