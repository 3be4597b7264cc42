// Tables as words of 64 rows, with care words or without, made into records.
#![tactic(auto)]

pub mod words;
