// What a job shows: whether a row fails in it, and its gate, its witness or that it is given up so far. The calls take anything.
#![tactic(auto)]

pub mod shown;
