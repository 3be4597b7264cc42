// Truth tables by their bits. The functions here ask for at most eight inputs: the calls that take anything stand in the crates above.
#![tactic(auto)]

pub mod table;
