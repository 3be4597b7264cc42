// Jobs of the stepping machine: made fresh, and carried on by corrections until a gate or a witness is found. The calls take anything.
#![tactic(auto)]

pub mod job;
