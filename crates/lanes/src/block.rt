// Blocks of 32 rows.
ghost use Rattle.std.specs.Prelude.{◌≡◌, ◌≤◌};
ghost use Rattle.lanes.specs.Blocks.{blocks_of};

// Returns the number of blocks.
pub fn block_count(n: u8) -> usize
    requires { n ≤ 8 }
    ensures { result ≡ blocks_of n }
{
    if n < 5 { 1 } else { 1usize << (n - 5) }
}
