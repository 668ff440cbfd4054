// Machines that tick on given inputs, and the lines of their calls.
ghost use Rattle.std.specs.Prelude.{◌≡◌, IfOk};
ghost use Rattle.std.specs.Option.{IfSome};

use crate::vector::Vector;
use limits::rows::{Refusal, row_number};
use std::io;
use vectors_notation::{Bytes, ROOM, print, word};

// What stands in an answer record before a call.
const UNWRITTEN: u8 = 0xA5;

// Space for an answer record that is too long.
const ANSWER_ROOM: usize = 16;

// What is printed where no call was made.
const NO_CALL: u8 = 255;

// The tick on the first bytes of each buffer; none where a buffer has fewer.
fn call(
    vector: &Vector,
    state: &mut Bytes,
    input: u32,
    answer: &mut [u8],
    answer_length: usize,
) -> Option<Result<(), Refusal>> {
    Some(instants::tick(
        vector.sequence.room.get(..vector.sequence.count)?,
        state.room.get_mut(..state.count)?,
        input,
        vector.read_back,
        answer.get_mut(..answer_length)?,
    ))
}

// One call and its line; answers the state record after it.
fn tick(
    rt: &impl Print,
    vector: Vector,
    before: Bytes,
    answer_length: usize,
    instant: u64,
    input: u32,
) -> io::Result<Bytes> {
    let mut after = before;
    let mut answer = [UNWRITTEN; ANSWER_ROOM];
    let refused = match call(&vector, &mut after, input, &mut answer, answer_length) {
        Some(Ok(())) => {
            print::instant(rt, instant, &after.room, &answer)?;
            return Ok(after);
        }
        Some(Err(refusal)) => row_number(refusal),
        None => NO_CALL,
    };
    let kept = after.room == before.room && answer == [UNWRITTEN; ANSWER_ROOM];
    print::refusal(rt, refused as u64, kept)?;
    Ok(after)
}

// A machine: a call for each input that the line names from `from` on. Answers the vector, or none
// where one of them is no input. An Err is a failed write, and leaves what was printed.
pub fn run(
    rt: &impl Print,
    line: &[u8],
    from: usize,
    vector: Vector,
    record: Bytes,
    answer_length: usize,
) -> io::Result<Option<Vector>>
    ensures { IfOk result (λ after. IfSome after (λ v. v ≡ vector)) }
{
    let mut state = record;
    let mut at = from;
    let mut instant: u64 = 0;
    // Each step goes on to the end of a word, so no index is counted that a `for` would spare.
    while at < line.len() {
        let word = word(line, at);
        let Some(input) = word.value else {
            return Ok(None);
        };
        instant += 1;
        state = tick(rt, vector, state, answer_length, instant, input)?;
        at = word.end;
    }
    Ok(Some(vector))
}
