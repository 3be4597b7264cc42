// The numbers of a report's last line.
ghost use Rattle.std.specs.Prelude.{◌≡◌};
ghost use Rattle.reporting.specs.Report.{no_tally, Within, counted};

use types::stage::Stage;

// Records read whole, the G, N and S lines, and the sum of K over the G lines.
#[derive(Clone, Copy)]
pub struct Tally {
    pub records: u64,
    pub gates: u64,
    pub witnesses: u64,
    pub opens: u64,
    pub sum: u64,
}

// Returns the tally of no record.
pub fn no_tally() -> Tally
    ensures { result ≡ no_tally }
{
    Tally {
        records: 0,
        gates: 0,
        witnesses: 0,
        opens: 0,
        sum: 0,
    }
}

// Returns the tally with one record more.
pub fn with_record(tally: Tally, stage: Stage, k: u32) -> Tally
    requires { Within tally }
    ensures { result ≡ counted stage k tally }
{
    let mut next = tally;
    next.records += 1;
    match stage {
        Stage::Open => next.opens += 1,
        Stage::Found => {
            next.gates += 1;
            next.sum += k as u64;
        }
        Stage::Looped | Stage::Binate => next.witnesses += 1,
    }
    next
}
