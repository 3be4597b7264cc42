// The lines of a report that a lent buffer holds.
ghost use Rattle.std.specs.Prelude.{◌≤◌, length};
ghost use Rattle.reporting.specs.Lines.{line_room};
ghost use Rattle.reporting.specs.Report.{input_most};
ghost use Rattle.batch.specs.Progress.{Bounded};
ghost use Rattle.batch.specs.Filled.{Filled};

use crate::line::next_line;
use crate::progress::{Progress, is_done};
use correction::steps::step_table;
use reporting::line::LINE_ROOM;

// How many lines were made, their length, and how far the report is after them.
#[derive(Clone, Copy)]
pub struct Lines {
    pub count: usize,
    pub length: usize,
    pub next: Progress,
}

// Makes the next lines of the report of an input, from the start of a lent buffer on, while it has room for a line. The table of steps is
// made once for all of them.
pub fn fill(input: &[u8], progress: Progress, out: &mut [u8]) -> Lines
    requires { (length input.now ≤ input_most) × Bounded progress × (line_room ≤ length out.old) }
    ensures { Filled input.now progress out.old out.new result }
{
    let steps = step_table();
    let mut count: usize = 0;
    let mut length: usize = 0;
    let mut next = progress;
    // kept: nothing is counted here, the loop goes on while a line has room
    while LINE_ROOM <= out.len() - length && !is_done(next) {
        let line = next_line(input, next, &steps, &mut out[length..]);
        count += 1;
        length += line.length;
        next = line.next;
    }
    Lines {
        count,
        length,
        next,
    }
}
