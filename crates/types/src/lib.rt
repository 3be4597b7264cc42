// What callers make and take apart: tables, gates, witnesses, kinds of inputs and of records, vectors, states of the machine, and refusals with
// their numbers. Any content may stand in these types, and the calls that take them look.
#![tactic(auto)]

pub mod field;
pub mod gate;
pub mod inputs;
pub mod kind;
pub mod refusal;
pub mod rows;
pub mod stage;
pub mod state;
pub mod table;
pub mod vector;
pub mod witness;
