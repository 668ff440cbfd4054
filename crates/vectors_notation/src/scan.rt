// Where a byte stands.
ghost use Rattle.std.specs.Prelude.{◌≤◌, ◌+◌, ◌≡◌, length, slice_range};
ghost use Rattle.vectors_notation.specs.Scan.{index_of};

// The place of the first such byte from `from` on and before `end`, or `end` where there is none.
pub fn find(bytes: &[u8], from: usize, end: usize, byte: u8) -> usize
    requires { (from ≤ end) × (end ≤ length bytes.now) }
    ensures place { result ≡ from + index_of byte (slice_range bytes.now from end) }
    ensures bounds { (from ≤ result) × (result ≤ end) }
{
    let part = &bytes[from..end];
    from + part.iter().position(|b| *b == byte).unwrap_or(part.len())
}
