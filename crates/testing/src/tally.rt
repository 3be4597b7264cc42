// What came out of a list of calls: how often each number, a sum in which every answer and its place in the list counts, and how many
// answers were right in all else.
use papers::show;
use std::io;

// The numbers are 0 (accepted) and those of refusals, which are below 256.
#[derive(Clone, Copy)]
pub struct Tally {
    counts: [u64; 256],
    sum: u64,
    right: u64,
}

// Returns the tally of no calls.
pub fn none() -> Tally {
    Tally {
        counts: [0u64; 256],
        sum: 0,
        right: 0,
    }
}

// Returns the tally with one more answer.
pub fn count(tally: Tally, number: u8, is_right: bool) -> Tally {
    let at = number as usize;
    let mut next = tally;
    next.counts[at] = next.counts[at].wrapping_add(1);
    next.sum = (31 * (next.sum % 1_000_003) + number as u64 + 1) % 1_000_003;
    if is_right {
        next.right = next.right.wrapping_add(1);
    }
    next
}

// Writes the numbers that came out, each with how often, the sum, and how many answers were right.
pub fn print(rt: &impl Print, name: &[u8], tally: Tally) -> io::Result<()> {
    show::word(rt, name)?;
    pairs(rt, tally.counts)?;
    show::word(rt, b" sum")?;
    show::number(rt, tally.sum)?;
    show::word(rt, b" right")?;
    show::number(rt, tally.right)
}

// Writes the counts above 0, each with its number.
fn pairs(rt: &impl Print, counts: [u64; 256]) -> io::Result<()> {
    for (number, count) in counts.iter().enumerate() {
        if 0 < *count {
            show::pair(rt, number as u64, *count)?;
        }
    }
    Ok(())
}
