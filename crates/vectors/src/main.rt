// Runs the vectors on standard input through the tick: the bays of 01 that are not marked, the worked reactions of 003 and
// 002, statements of 000, 001 and 004, and calls that 01 turns down. A vector prints its title, then a line for each call.
// The file stdout was written by hand from the papers.
//
// A line of the input is empty, a comment (#), a title, or an indented line of the vector below its title: bytes of the
// sequence, its read-back set, or the inputs of a machine. The file stdin shows each form at its top. A malformed line ends the
// run with a line that says which one it is.
#![tactic(auto)]

mod file_lines;
mod ticks;
mod vector;

ghost use Rattle.std.specs.Prelude.{◌≡◌, length};

use input::{read_full, zeros};
use std::io;

// One byte more than the file may have, so that a longer one is seen.
const ROOM: usize = 262144;

fn room() -> [u8; ROOM]
    ensures { 262144 ≡ length result }
{
    zeros()
}

fn main(rt: HostRuntime) -> io::Result<()> {
    let mut space = room();
    let count = read_full(&mut rt.stdin(), &mut space)?;
    if count == ROOM {
        return println!(rt; "file too long");
    }
    file_lines::all(&rt, &space[..count])
}
