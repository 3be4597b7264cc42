// The trace of a job, by its parts: whether the counts of the rows since the mark lead from the vector there to where the job stands. The
// functions ask for at most eight inputs and for counts as their type has them.
#![tactic(auto)]

pub mod traced;
