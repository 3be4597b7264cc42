// The test that a table is unate: its lowest binate input, found over words of 64 rows, and the counts that show it. The functions ask for
// at most eight inputs.
#![tactic(auto)]

pub mod binate;
pub mod words;
