// The calls of the C interface, which `threshold_c` exports: twenty on records as bytes, on digits and words, and on numbers. Each returns what it
// gives, 0 or above, or the negative of the number of the refusal: the documents', or one from 100 on, which are the interface's own. What is lent
// to be written is changed in the answer alone, and by an accepted call alone.
#![tactic(auto)]

pub mod certificate;
pub mod checked;
pub mod elsewhere;
pub mod found;
pub mod jobs;
pub mod lent_numbers;
pub mod tables;
