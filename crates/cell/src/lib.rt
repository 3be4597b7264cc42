// The checked calls on one cell: values on a row, the checker, input kinds and Chow's parameters. Each takes any content, checks
// it in the documents' order, and answers or refuses. Beside them, a table with every row cared for, of its values.
#![tactic(auto)]

pub mod checker;
pub mod chow;
pub mod inputs;
pub mod value;
pub mod whole;
