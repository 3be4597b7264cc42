// How far a report is.
ghost use Rattle.std.specs.Prelude.{◌≡◌};
ghost use Rattle.batch.specs.Progress.{start, is_done};

use reporting::tally::{Tally, no_tally};

// What comes next: a record, or the last line after a refusal, or nothing.
#[derive(Clone, Copy, PartialEq, Eq)]
pub enum Phase {
    Records,
    Last,
    Done,
}

// The position reached in the input, and the records so far.
#[derive(Clone, Copy)]
pub struct Progress {
    pub at: usize,
    pub tally: Tally,
    pub phase: Phase,
}

// Returns the start of a report.
pub fn at_start() -> Progress
    ensures { result ≡ start }
{
    Progress {
        at: 0,
        tally: no_tally(),
        phase: Phase::Records,
    }
}

// Returns whether a report has no line left.
pub fn is_done(progress: Progress) -> bool
    ensures { result ≡ is_done progress.phase }
{
    progress.phase == Phase::Done
}
