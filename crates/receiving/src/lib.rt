// Records read from the sender's bytes by a reader that travels through them.
#![tactic(auto)]

pub mod record;
