// How the jobs of a run ended. The sums wrap, so that no input stops the count.
use crate::ways;
use crate::ways::Work;
use heads::kind::{Takes, read_kind};
use reading::tables::read_table;
use std::io;
use types::kind::{Family, Head};
use types::stage::Stage;

// The tables, the jobs by stage, the corrections made, the calls of carry-on, and the bytes that jobs were saved in.
#[derive(Clone, Copy)]
pub struct Tally {
    pub tables: u64,
    pub found: u64,
    pub looped: u64,
    pub binate: u64,
    pub open: u64,
    pub corrections: u64,
    pub calls: u64,
    pub bytes: u64,
}

// Returns the tally of no job.
fn none() -> Tally {
    Tally {
        tables: 0,
        found: 0,
        looped: 0,
        binate: 0,
        open: 0,
        corrections: 0,
        calls: 0,
        bytes: 0,
    }
}

// Returns the tally with one job more.
fn with_work(tally: Tally, work: Work) -> Tally {
    let mut next = tally;
    next.tables = next.tables.wrapping_add(1);
    next.corrections = next.corrections.wrapping_add(work.k as u64);
    next.calls = next.calls.wrapping_add(work.calls);
    next.bytes = next.bytes.wrapping_add(work.bytes);
    match work.stage {
        Stage::Open => next.open = next.open.wrapping_add(1),
        Stage::Found => next.found = next.found.wrapping_add(1),
        Stage::Looped => next.looped = next.looped.wrapping_add(1),
        Stage::Binate => next.binate = next.binate.wrapping_add(1),
    }
    next
}

// Returns the way that a kind byte stands for in the heads; none, as of a kind whose tables have care bytes.
fn way_of(head: Head) -> Option<u8> {
    if head.cares {
        return None;
    }
    match head.family {
        Family::Tables => Some(1),
        Family::Gates => Some(2),
        Family::Witnesses => Some(ways::LAST),
        Family::Jobs => None,
    }
}

// Returns how the jobs of the heads ended.
pub fn of(heads: &[u8]) -> Tally {
    let mut tally = none();
    let mut at: usize = 0;
    for _ in 0..heads.len() {
        let Ok(head) = read_kind(heads, at, Takes::Every) else {
            return tally;
        };
        let Some(way) = way_of(head.value) else {
            return tally;
        };
        let Ok(table) = read_table(heads, head.next, false) else {
            return tally;
        };
        tally = with_work(tally, ways::carried_on(way, table.value));
        at = table.next;
    }
    tally
}

// Prints the eight numbers on a line.
pub fn show(rt: &impl Print, tally: Tally) -> io::Result<()> {
    number(rt, tally.tables, b" ")?;
    number(rt, tally.found, b" ")?;
    number(rt, tally.looped, b" ")?;
    number(rt, tally.binate, b" ")?;
    number(rt, tally.open, b" ")?;
    number(rt, tally.corrections, b" ")?;
    number(rt, tally.calls, b" ")?;
    number(rt, tally.bytes, b"\n")
}

// Prints a number and what ends it.
fn number(rt: &impl Print, n: u64, after: &[u8]) -> io::Result<()> {
    rt.print(n)?;
    rt.write_all(after)
}
