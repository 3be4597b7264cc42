// The binate input of a table, and the counts that show it.
ghost use Rattle.std.specs.Prelude.{◌≡◌, ℕ, ◌+◌, ◌*◌, ◌^◌, ◌≤◌, ◌<◌, get_or, Option, Some};
ghost use Rattle.function.specs.Binate.{pair_more, binate_at, binate_place, binate_counts};
ghost use Rattle.unateness.specs.Words.{side_words};
ghost use Rattle.table.specs.Table.{rows, function_of};

use crate::words::{pairs_at, rows_without, side_words};
use rowwise::inputs::first_turn;
use table::table::row_count;
use types::table::Table;

// Whether the place's input rises somewhere and falls elsewhere, by the rows that are cared for, which so many words hold.
fn binate_at(trues: &[u64; 4], falses: &[u64; 4], words: usize, place: usize) -> bool
    requires { (words ≤ 4) × (place < 8) }
    ensures { (t : Table) → rows t ≤ 64 * words → place < t.n → trues.now ≡ (side_words t).trues → falses.now ≡ (side_words t).falses → result ≡ binate_at (function_of t) place }
{
    let lacking = rows_without(place);
    let mut rises: u64 = 0;
    let mut falls: u64 = 0;
    for at in 0..words {
        let on = pairs_at(trues, lacking, place, at);
        let off = pairs_at(falses, lacking, place, at);
        rises |= off.own & on.partner;
        falls |= on.own & off.partner;
    }
    rises != 0 && falls != 0
}

// Returns the place of the lowest binate input.
pub fn binate_place(table: Table) -> Option<usize>
    requires { table.n ≤ 8 }
    ensures { result ≡ binate_place (function_of table) }
{
    let sides = side_words(table);
    let n = table.n as usize;
    let words = (row_count(table.n) + 63) / 64;
    for place in 0..n {
        if binate_at(&sides.trues, &sides.falses, words, place) {
            return Some(place);
        }
    }
    None
}

// Adds one to the count of the row that a search found, and to that of its partner with the place's input true.
fn add_pair(counts: &mut [u32; 256], place: usize, turn: Option<usize>)
    requires { (place < 8) × ((row : ℕ) → turn ≡ Some row → row + 2 ^ place < 256) × ((row : ℕ) → get_or counts.old row 0 ≤ 2) }
    ensures { (o : Option ℕ) → turn ≡ o → counts.new ≡ pair_more 2 place o counts.old }
{
    let Some(row) = turn else {
        return;
    };
    counts[row] += 1;
    let partner = row + (1usize << place);
    counts[partner] += 1;
}

// Returns the counts of a binate table: 1 at the lowest row where the place's input rises, at the lowest where it falls, and at their
// partners.
pub fn binate_counts(table: Table, place: usize) -> [u32; 256]
    requires { (table.n ≤ 8) × (place < table.n) }
    ensures { result ≡ binate_counts (function_of table) place }
{
    let mut counts = [0u32; 256];
    add_pair(&mut counts, place, first_turn(table, true, place));
    add_pair(&mut counts, place, first_turn(table, false, place));
    counts
}
