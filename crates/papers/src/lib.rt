// What the test programs share: functions and partial tables, one a line, the words, numbers and table of a line, and words and numbers on
// standard output.
#![tactic(auto)]

pub mod data;
pub mod line;
pub mod scan;
pub mod show;
pub mod text;
