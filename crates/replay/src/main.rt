// The replay program for planners (02, item 14): reads a run file's head and a recording on standard input, and prints whether the
// recording is the sequence's.
//
// The line is the library's; this program only reads and writes.
#![tactic(auto)]

use input::{read_full, zeros};
use std::io;

// One byte more than a file may have, so that a longer one is seen.
const ROOM: usize = 4194305;

fn print_verdict(rt: &impl Print, file: &[u8]) -> io::Result<()> {
    let line = replay_lines::verdict(file);
    rt.write_all(line.text())
}

fn main(rt: HostRuntime) -> io::Result<()> {
    let mut space: [u8; ROOM] = zeros();
    let count = read_full(&mut rt.stdin(), &mut space)?;
    print_verdict(&rt, &space[..count])
}
