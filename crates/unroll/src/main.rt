// The unroll program (02, item 13): reads the file of a run, or its head, on standard input, and writes the same with the loops of its
// sequence written out, or why there is no such file.
//
// What is written is the library's; this program only reads and writes.
#![tactic(auto)]

use input::{read_full, zeros};
use lines::Line;
use std::io;

// One byte more than a file may have, so that a longer one is seen.
const ROOM: usize = 65537;

fn print_line(rt: &impl Print, line: Line) -> io::Result<()> {
    rt.write_all(line.text())
}

// The length, the result and what stood behind the sequence.
fn print_file(rt: &impl Print, file: &[u8], res: &[u8], count: usize) -> io::Result<()> {
    let length = unroll_files::length_bytes(count);
    rt.write_all(&length)?;
    // What is promised of the result is its bytes and not a bound on `count`, and `part` asks for none.
    rt.write_all(numbers::part(res, 0, count))?;
    rt.write_all(files::behind_sequence(file))
}

fn print_unrolled(rt: &impl Print, file: &[u8]) -> io::Result<()> {
    let mut result: [u8; limits::MAX_BYTES] = zeros();
    match unroll_files::unroll(file, &mut result) {
        Ok(count) => print_file(rt, file, &result, count),
        Err(error) => print_line(rt, lines::failure(error)),
    }
}

fn main(rt: HostRuntime) -> io::Result<()> {
    let mut space: [u8; ROOM] = zeros();
    let count = read_full(&mut rt.stdin(), &mut space)?;
    print_unrolled(&rt, &space[..count])
}
