// Parts of a slice, by lengths and positions that may be past its end.
ghost use Rattle.std.specs.Prelude.{◌≤◌};

// Returns the lesser of two lengths.
pub fn least(length: usize, most: usize) -> usize
    ensures { result ≤ most }
{
    if length < most { length } else { most }
}

// Returns the first bytes of a slice, or all where it has no more.
pub fn first_bytes(bytes: &[u8], length: usize) -> &[u8] {
    let end = least(length, bytes.len());
    &bytes[0..end]
}

// Returns the bytes of a slice from a position on: none, if that is past the end.
pub fn rest(bytes: &[u8], at: usize) -> &[u8] {
    let start = least(at, bytes.len());
    &bytes[start..]
}
