// The lines of the file of vectors: each is read with what the lines before it gave. A malformed line gives no vector.
ghost use Rattle.std.specs.Prelude.{◌≤◌, length};

use crate::ticks::run;
use crate::vector::{Vector, fresh, spelled};
use records::{ANSWER_LENGTH, STATE_LENGTH};
use std::io;
use vectors_notation::{append, print, repeat, scan, word, zeros};

// The read-back set that the line names, for the calls after it.
fn declared(line: &[u8], from: usize, vector: Vector) -> Option<Vector> {
    let set = word(line, from);
    let read_back = set.value?;
    (set.end == line.len()).then_some(Vector {
        read_back,
        ..vector
    })
}

// A machine from the state record that the line names before a colon.
fn resume(rt: &impl Print, line: &[u8], from: usize, vector: Vector) -> io::Result<Option<Vector>>
    requires { from ≤ length line.now }
{
    let Some(length) = line[from..].iter().position(|byte| *byte == b':') else {
        return Ok(None);
    };
    let colon = from + length;
    let Some(record) = append(&line[..colon], from, zeros(0)) else {
        return Ok(None);
    };
    run(rt, line, colon + 1, vector, record, ANSWER_LENGTH)
}

// The vector after an indented line: the first letter of its word tells what it gives.
fn indented(rt: &impl Print, line: &[u8], vector: Vector) -> io::Result<Option<Vector>> {
    if line.len() < 3 {
        return Ok(None);
    }
    let at = scan::find(line, 2, line.len(), b' ');
    let fresh_state = zeros(STATE_LENGTH);
    match line[2] {
        b'b' => Ok(append(line, at, vector.sequence).map(|sequence| spelled(vector, sequence))),
        b't' => Ok(repeat(line, at, vector.sequence).map(|sequence| spelled(vector, sequence))),
        b'd' => Ok(declared(line, at, vector)),
        b'f' => resume(rt, line, at, vector),
        b'r' => run(rt, line, at, vector, fresh_state, ANSWER_LENGTH),
        b's' => run(rt, line, at, vector, fresh_state, ANSWER_LENGTH - 1),
        b'l' => run(rt, line, at, vector, fresh_state, ANSWER_LENGTH + 1),
        _ => Ok(None),
    }
}

// The vector after a line.
fn line(rt: &impl Print, line: &[u8], vector: Vector) -> io::Result<Option<Vector>> {
    match line {
        [] | [b'#', ..] => Ok(Some(vector)),
        [b' ', ..] => indented(rt, line, vector),
        _ => {
            print::title(rt, line)?;
            Ok(Some(fresh()))
        }
    }
}

// Runs the vectors of a file, up to the first line that is malformed.
pub fn all(rt: &impl Print, file: &[u8]) -> io::Result<()> {
    let mut vector = fresh();
    for (i, text) in file.split(|byte| *byte == b'\n').enumerate() {
        let Some(after) = line(rt, text, vector)? else {
            return print::malformed(rt, i as u64 + 1);
        };
        vector = after;
    }
    Ok(())
}
