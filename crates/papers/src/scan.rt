// The first place of a byte in a part of a slice.
ghost use Rattle.std.specs.Prelude.{◌≡◌, ◌≢◌, ℕ, ◌<◌, ◌≤◌, length, slice_index};

// Returns the place of the first such byte in s[start..end]; `end` where there is none.
pub fn find(s: &[u8], start: usize, end: usize, byte: u8) -> usize
    requires ordered { start ≤ end }
    requires inside { end ≤ length s.now }
    ensures within { (start ≤ result) × (result ≤ end) }
    ensures before { (k : ℕ) → start ≤ k → k < result → slice_index s.now k ≢ byte }
    ensures found { result < end → slice_index s.now result ≡ byte }
{
    for at in start..end {
        if s[at] == byte {
            return at;
        }
    }
    end
}
