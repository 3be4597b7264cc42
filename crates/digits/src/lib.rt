// Tables as hex digits, made into records.
#![tactic(auto)]

pub mod digits;
