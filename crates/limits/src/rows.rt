// What turns a call down (01, 'Turned down'; 02, items 8 to 14): each refusal has its row's number, and 0 is acceptance.
ghost use Rattle.std.specs.Prelude.{◌≡◌};
ghost use Rattle.limits.specs.Rows.{row_number, call_number};

#[derive(Clone, Copy, Debug, PartialEq, Eq)]
pub enum Refusal {
    // A lent buffer's length.
    Length = 1,
    // A sequence of no bytes or too many.
    Bytes = 2,
    // A byte that is no command.
    Command = 3,
    // An operand or a statement missing.
    Missing = 4,
    // An operand outside its range.
    Operand = 5,
    // Too deep, or too many signals around.
    Depth = 6,
    // Bytes behind the statement.
    Behind = 7,
    // Two pauses with one label.
    Twice = 8,
    // A setpause whose label has no pause.
    Unpaused = 9,
    // Not well-formed.
    Form = 10,
    // A malformed state.
    Malformed = 11,
    // A machine that is over.
    Over = 12,
    // No such bay.
    Bay = 13,
    // The shared ceiling.
    Ceiling = 14,
    // Not waiting, or no such position.
    Position = 15,
    // Too many positions.
    Positions = 16,
    // Too many unknown inputs.
    Unknown = 17,
    // Litres outside their range.
    Litres = 18,
    // A farm's total that would pass the limit.
    Ledger = 19,
    // A setpause in a sequence to unroll.
    Setpause = 20,
    // A result too long or too deep.
    Unrolled = 21,
    // A recording that is no whole number of records.
    Recording = 22,
}

// The number of a refusal's row.
pub fn row_number(refusal: Refusal) -> u8
    ensures { result ≡ row_number refusal }
{
    refusal as u8
}

// The number that a call answers in C.
pub fn call_number<T: Copy>(outcome: Result<T, Refusal>) -> u8
    ensures { result ≡ call_number outcome }
{
    match outcome {
        Ok(_) => 0,
        Err(refusal) => row_number(refusal),
    }
}
