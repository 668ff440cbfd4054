// The call that writes loops out (02, item 13): the original is checked once, then the sizes of the result are found by one
// traversal, then it is written by another.
#![tactic(auto)]

pub mod heads;
pub mod sizes;
pub mod writer;

ghost use Rattle.std.specs.Prelude.{◌≡◌, length};
ghost use Rattle.spec_base.specs.Limits.{max_bytes, max_depth};
ghost use Rattle.layout.specs.Layout.{Ready};
ghost use Rattle.unroll_call.specs.Unrolling.{UnrollMeets, PlainMeets};

use layout::SecondParts;
use limits::rows::Refusal;
use notes::Notes;

const MAX_BYTES: u64 = limits::MAX_BYTES as u64;

const MAX_DEPTH: u32 = limits::MAX_DEPTH as u32;

// The call for an accepted sequence without setpause, with the table of second parts that the check left.
fn of_plain(sequence: &[u8], second: &SecondParts, buffer: &mut [u8]) -> Result<usize, Refusal>
    requires ready { Ready second.now max_depth 0 sequence.now }
    requires buffer_len { length buffer.old ≡ max_bytes }
    ensures { PlainMeets result buffer.new second.now sequence.now buffer.old }
{
    let n = crate::sizes::of_statement(sequence, 0, limits::MAX_DEPTH, second);
    if n.whole > MAX_BYTES || n.depth > MAX_DEPTH {
        return Err(Refusal::Unrolled);
    }
    Ok(crate::writer::write(sequence, 0, limits::MAX_DEPTH, second, 0, buffer))
}

// The length of the result, which is written to the front of the buffer.
pub fn unroll(sequence: &[u8], read_back: u32, buffer: &mut [u8]) -> Result<usize, Refusal>
    ensures { UnrollMeets result buffer.new sequence.now read_back buffer.old }
{
    if buffer.len() != limits::MAX_BYTES {
        return Err(Refusal::Length);
    }
    let mut second: SecondParts = [0; limits::MAX_BYTES];
    let mut notes: Notes = [0; notes::LENGTH];
    checks::check(sequence, read_back, &mut second, &mut notes)?;
    let setpauses = notes::setpauses(&notes);
    if !labels::is_empty(setpauses) {
        return Err(Refusal::Setpause);
    }
    of_plain(sequence, &second, buffer)
}
