// The search for the lowest failing row: all 32 rows of a block at once, block after block.
ghost use Rattle.std.specs.Prelude.{◌≡◌, true, ℕ, ◌+◌, ◌^◌, ◌≤◌, ◌<◌, length, get_or, pos, nat_abs, ◌+ℤ◌};
ghost use Rattle.std.specs.Int.Signed.{lt_z};
ghost use Rattle.table.specs.Gate.{in_range};
ghost use Rattle.types.specs.declared.vector.Vector.{Vector};
ghost use Rattle.function.specs.Failing.{failing};
ghost use Rattle.numbers.specs.Tabulate.{Holds};
ghost use Rattle.lanes.specs.Blocks.{lane_rows};
ghost use Rattle.lanes.specs.Sums.{vector_sums, Narrow};
ghost use Rattle.lanes.specs.Codes.{found_code};
ghost use Rattle.search.specs.Keys.{one_of, key_of, least_below, block_key};
ghost use Rattle.table.specs.Table.{function_of};

use lanes::block::block_count;
use types::table::Table;

// Returns the least key of a block. The sign of a row's difference flips its key, which is negative where the row fails.
fn least_key(sums: &[i16; 40], high: i16, ones: &[i16], keys: &[i16]) -> i16
    requires ones_len { (length ones.now ≡ 32) × (length keys.now ≡ 32) }
    requires room { (q : ℕ) → q < 32 → nat_abs (get_or sums.now q (pos 0)) + nat_abs high + nat_abs (get_or ones.now q (pos 0)) < 2 ^ 15 }
    ensures { result ≡ least_below 32 (block_key sums.now high ones.now keys.now) }
{
    let mut least = i16::MAX;
    // kept: an index, since the search is slower by a tenth with the lists zipped
    for row in 0..32 {
        let key = ((sums[row] + high - ones[row]) & i16::MIN) ^ keys[row];
        least = least.min(key);
    }
    least
}

// Returns the code that the key of a failing row stands for.
fn code_of(key: i16) -> usize
    requires { lt_z key (pos 0) ≡ true }
    ensures { pos result ≡ key +ℤ pos 32768 }
{
    (key as i32 + 32768) as usize
}

// Returns the code of the lowest failing row, if a row fails. The first block has no higher input.
#[tactic(auto, using(lanes::proofs::WeightLaws::blocks_le))]
pub fn lowest(sums: &[i16; 40], ones: &[i16; 256], keys: &[i16; 256], table: Table) -> Option<usize>
    requires n_bound { (table.n ≤ 8) × Holds (one_of table) (lane_rows table.n) ones.now × Holds (key_of table) (lane_rows table.n) keys.now }
    requires narrow { Narrow 16000 sums.now × (get_or sums.now 32 (pos 0) ≡ pos 0) }
    ensures { (k : ℕ) (v : Vector) → length v.a ≡ 8 → in_range k table.n v.a v.b ≡ true → sums.now ≡ vector_sums v → result ≡ found_code table (failing (function_of table) v) }
{
    let first = least_key(sums, 0, &ones[..32], &keys[..32]);
    if first < 0 {
        return Some(code_of(first));
    }
    for block in 1..block_count(table.n) {
        let from = block * 32;
        let end = from + 32;
        let least = least_key(sums, sums[32 + block], &ones[from..end], &keys[from..end]);
        if least < 0 {
            return Some(code_of(least));
        }
    }
    None
}
