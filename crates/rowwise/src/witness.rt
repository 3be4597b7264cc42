// A witness: a count for each row, and whether the counts are in their ranges.
ghost use Rattle.std.specs.Prelude.{◌≡◌, ◌||◌, ◌≤◌, ◌<◌, eqb, length, drop};
ghost use Rattle.numbers.specs.Tests.{all_at_most};
ghost use Rattle.function.specs.Witness.{count_of, counts_cared, same_counts};
ghost use Rattle.table.specs.Table.{cared, function_of};
ghost use Rattle.table.specs.Witness.{unfit};

use table::table::{row_cared, row_count, some_free};
use types::table::Table;
use types::witness::Witness;

// A count lies in 0 to this limit.
pub const COUNT_LIMIT: u32 = 1_000_000;

// Whether each count from a row on is at most the limit.
pub fn counts_within(counts: &[u32; 256], from: usize, limit: u32) -> bool
    requires { (length counts.now ≡ 256) × (from ≤ 256) }
    ensures { result ≡ all_at_most limit (drop from counts.now) }
{
    counts[from..].iter().all(|count| *count <= limit)
}

// Whether a row may have this count: it is cared for, or the count is 0.
fn may_count(table: Table, row: usize, count: u32) -> bool
    requires { row < 256 }
    ensures { result ≡ (cared table row || eqb count 0) }
{
    count == 0 || row_cared(table, row)
}

// Whether no row that is not cared for has a count.
pub fn counts_cared(table: Table, counts: &[u32; 256]) -> bool
    requires { table.n ≤ 8 }
    ensures { result ≡ counts_cared (function_of table) (count_of counts.now) }
{
    if !some_free(table) {
        return true;
    }
    let rows = row_count(table.n);
    for (row, count) in counts[..rows].iter().enumerate() {
        if !may_count(table, row, *count) {
            return false;
        }
    }
    true
}

// Whether the counts are the same. Kept beside `==`: theorems speak of its definition.
pub fn same_counts(x: &[u32; 256], y: &[u32; 256]) -> bool
    ensures { result ≡ same_counts x.now y.now }
{
    x == y
}

// Whether the counts are all 0, one is too large, or one past the table is not 0.
#[tactic(auto, unfolding(table::specs::Witness::unfit))]
pub fn witness_unfit(table: Table, witness: Witness) -> bool
    requires { table.n ≤ 8 }
    ensures { result ≡ unfit table witness }
{
    counts_within(&witness.counts, 0, 0)
        || !counts_within(&witness.counts, 0, COUNT_LIMIT)
        || !counts_within(&witness.counts, row_count(table.n), 0)
}
