// Gates and witnesses as numbers in lent arrays: their numbers from a record, and from numbers their record or what the checker says of them.
#![tactic(auto)]

pub mod checked;
pub mod given;
mod made;
pub mod taken;
