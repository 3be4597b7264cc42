// A record that was read, looked at: what a call of the C interface says of it.
#![tactic(auto)]

pub mod certificate;
