// What a job has come to, as the bytes of a record in a lent buffer.
#![tactic(auto)]

pub mod outcome;
