// The C library: each call of `threshold`, by its name, its arguments and its clauses, as C calls it. A slice is passed as a pointer and then a
// length. What each call writes, returns and refuses stands at the function that it calls.
#![tactic(auto)]

mod certificate;
mod checked;
mod elsewhere;
mod found;
mod jobs;
mod lent_numbers;
mod tables;
