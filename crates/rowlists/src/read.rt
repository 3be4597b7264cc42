// Row lists read.
ghost use Rattle.std.specs.Prelude.{◌≡◌, ◌≤◌, ◌<◌};
ghost use Rattle.function.specs.Witness.{zeros};
ghost use Rattle.codec.specs.RowList.{pair_at, pairs_at, row_list_at, length_fits, row_fits, count_fits};

use numerals::number::read_number;
use rowwise::witness::COUNT_LIMIT;
use types::field::Field;
use types::refusal::Refusal;
use types::rows::{Pair, RowList};

// Whether a list may have so many pairs.
fn fits_length(strict: bool, rows: u32, pairs: u32) -> bool
    ensures { result ≡ length_fits strict rows pairs }
{
    pairs <= rows && (!strict || 0 < pairs)
}

// Whether a row may come now.
fn fits_row(rows: u32, lowest: u32, row: u32) -> bool
    ensures { result ≡ row_fits rows lowest row }
{
    lowest <= row && row < rows
}

// Whether a count is in its range.
fn fits_count(count: u32) -> bool
    ensures { result ≡ count_fits count }
{
    0 < count && count <= COUNT_LIMIT
}

// Reads the pair at a position. Refusals: 1, 4; 8 if ranges are refused at once.
#[tactic(auto, unfolding(codec::specs::RowList::pair_at))]
fn read_pair(
    bytes: &[u8],
    at: usize,
    rows: u32,
    lowest: u32,
    strict: bool,
) -> Result<Field<Pair>, Refusal>
    ensures { result ≡ pair_at strict rows lowest bytes.now at }
{
    let row = read_number(bytes, at)?;
    let row_fits = fits_row(rows, lowest, row.value);
    if strict && !row_fits {
        return Err(Refusal::RowList);
    }
    let count = read_number(bytes, row.next)?;
    let count_fits = fits_count(count.value);
    if strict && !count_fits {
        return Err(Refusal::RowList);
    }
    Ok(Field {
        value: Pair {
            row: row.value,
            count: count.value,
            fits: row_fits && count_fits,
        },
        next: count.next,
    })
}

// Reads so many pairs at a position, and stores those in range. `fits` says whether the list's length was in range.
fn read_pairs(
    bytes: &[u8],
    at: usize,
    rows: u32,
    pairs: u32,
    fits: bool,
    strict: bool,
) -> Result<Field<RowList>, Refusal>
    requires { rows ≤ 256 }
    ensures { result ≡ pairs_at strict rows pairs 0 (record { counts = zeros; kept = fits }) bytes.now at }
{
    let mut list = RowList {
        counts: [0u32; 256],
        kept: fits,
    };
    let mut lowest: u32 = 0;
    let mut next = at;
    for _ in 0..pairs {
        let field = read_pair(bytes, next, rows, lowest, strict)?;
        let pair = field.value;
        if pair.fits {
            list.counts[pair.row as usize] = pair.count;
            lowest = pair.row + 1;
        } else {
            list.kept = false;
        }
        next = field.next;
    }
    Ok(Field { value: list, next })
}

// Reads a row list of a table of so many rows at a position. Refusals: 1, 4; 8 if ranges are refused at once, an empty list included.
// Else the list is gone through to its end, and what is out of range is not stored.
#[tactic(auto, unfolding(codec::specs::RowList::row_list_at))]
pub fn read_rows(
    bytes: &[u8],
    at: usize,
    rows: u32,
    strict: bool,
) -> Result<Field<RowList>, Refusal>
    requires { rows ≤ 256 }
    ensures { result ≡ row_list_at strict rows bytes.now at }
{
    let length = read_number(bytes, at)?;
    let fits = fits_length(strict, rows, length.value);
    if strict && !fits {
        return Err(Refusal::RowList);
    }
    read_pairs(bytes, length.next, rows, length.value, fits, strict)
}
