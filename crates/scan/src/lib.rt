// Whether a row fails, and the search for the lowest failing row of a table, by blocks of rows. The functions ask for at most eight inputs
// and a vector in its range.
#![tactic(auto)]

pub mod scan;
