// The reader of records, which travels through the sender's bytes.
#![tactic(auto)]

pub mod reader;
