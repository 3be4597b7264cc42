// A table decided and a job carried on, with what is handed back: the bytes of a record in a lent buffer, and the corrections made.
#![tactic(auto)]

pub mod handed;
