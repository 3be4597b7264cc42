// Records written into a lent buffer: tables, gates, witnesses, and open jobs, which are saved so.
#![tactic(auto)]

pub mod write;
