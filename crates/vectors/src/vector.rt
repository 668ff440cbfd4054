// What the lines of a vector gave so far.
ghost use Rattle.std.specs.Prelude.{◌≡◌};
ghost use Rattle.vectors_notation.specs.Room.{holds, zeroed};

use vectors_notation::{Bytes, zeros};

// The sequence, and the read-back set of the calls that follow.
#[derive(Clone, Copy, Debug, PartialEq, Eq)]
pub struct Vector {
    pub sequence: Bytes,
    pub read_back: u32,
}

// A vector before its first line: no bytes, and nothing is read back.
pub fn fresh() -> Vector
    ensures { (holds result.sequence ≡ zeroed 0) × (result.read_back ≡ 0) }
{
    Vector {
        sequence: zeros(0),
        read_back: 0,
    }
}

// The vector with another sequence.
pub fn spelled(vector: Vector, sequence: Bytes) -> Vector
    ensures { (result.sequence ≡ sequence) × (result.read_back ≡ vector.read_back) }
{
    Vector { sequence, ..vector }
}
