// Jobs from lines of text. The words of a line are a name, n and the table, as `papers::line` has them, the stage's letter, a row, a budget,
// K and M, and then three for each number that is not 0: `v` or `s`, place and component, where place 0 is b, or `c`, row and count.
// A capital sets every component or count, whatever its place.
use crate::stage;
use job::job::Job;
use papers::line::table_of;
use papers::text::{digit, first, word};
use types::stage::Stage;
use types::state::State;
use types::table::Table;
use types::vector::Vector;

// Returns the number that a word spells in base ten, modulo 2^32.
fn number(word: &[u8]) -> u32 {
    let mut value: u64 = 0;
    for letter in word {
        value = (10 * value + digit(*letter) as u64) % 4_294_967_296;
    }
    value as u32
}

// Returns the number that a word spells, with a minus sign or without; below -2^31 and from 2^31 on it is another one.
fn signed(word: &[u8]) -> i32 {
    if word.len() > 0 {
        if word[0] == b'-' {
            return negative(number(&word[1..]));
        }
    }
    (number(word) % 2_147_483_648) as i32
}

// Returns the negation of a number from 1 to 2^31.
fn negative(number: u32) -> i32 {
    let below = (number as u64 + 2_147_483_647) % 2_147_483_648;
    -1 - below as i32
}

// Returns the vector with one component set.
fn with_component(v: Vector, place: usize, value: i32) -> Vector {
    let mut next = v;
    if place == 0 {
        next.b = value;
    } else {
        next.a[(place - 1) % 8] = value;
    }
    next
}

// Returns the vector whose components are all the same.
fn full(value: i32) -> Vector {
    Vector {
        a: [value; 8],
        b: value,
    }
}

// Returns the state with one number set, or all numbers of a sort.
fn with_number(state: State, letter: u8, at: usize, value: &[u8]) -> State {
    let mut next = state;
    if letter == b'v' {
        next.v = with_component(next.v, at, signed(value));
    } else if letter == b's' {
        next.s = with_component(next.s, at, signed(value));
    } else if letter == b'c' {
        next.counts[at % 256] = number(value);
    } else if letter == b'V' {
        next.v = full(signed(value));
    } else if letter == b'S' {
        next.s = full(signed(value));
    } else {
        let count = number(value);
        next.counts = [count; 256];
    }
    next
}

// Returns the state of a line with v, s and all counts 0.
fn plain_state(line: &[u8]) -> State {
    let stage = stage::of(first(word(line, 3)));
    State {
        k: number(word(line, 6)),
        v: full(0),
        mark: number(word(line, 7)),
        s: full(0),
        counts: [0u32; 256],
        stage,
    }
}

// Returns the job of a line.
pub fn job(line: &[u8]) -> Job {
    let mut state = plain_state(line);
    for k in (8..64usize).step_by(3) {
        if word(line, k).is_empty() {
            break;
        }
        let at = number(word(line, k + 1)) as usize;
        state = with_number(state, first(word(line, k)), at, word(line, k + 2));
    }
    Job {
        table: table_of(line),
        state,
    }
}

// Returns the job of a table all of whose numbers are 0, open: what a test shows beside a refusal.
pub fn no_job(table: Table) -> Job {
    Job {
        table,
        state: State {
            k: 0,
            v: full(0),
            mark: 0,
            s: full(0),
            counts: [0u32; 256],
            stage: Stage::Open,
        },
    }
}

// Returns the row of a line; a minus sign stands for the largest.
pub fn row(line: &[u8]) -> usize {
    let row = word(line, 4);
    if first(row) == b'-' {
        return usize::MAX;
    }
    number(row) as usize
}

// Returns the budget of a line.
pub fn budget(line: &[u8]) -> u32 {
    number(word(line, 5))
}
