// A table by its rows, as it comes from elsewhere, made into a record.
#![tactic(auto)]

pub mod made;
