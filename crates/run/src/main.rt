// The run program (01, 'Bays to run'): reads the file of a run on standard input and prints its listing.
//
// The listing is the library's, piece by piece; this program only reads, writes and counts its turns.
#![tactic(auto)]

use input::{read_full, zeros};
use listing::Run;
use std::io;

// One byte more than a file may have, so that a longer one is seen.
const ROOM: usize = 65537;

// As many turns as the buffer has bytes, and two: the listing has no more (theory_programs, turns_list).
const TURNS: usize = 65539;

// Writes the next piece, and answers the run after it.
fn print_piece(rt: &impl Print, file: &[u8], run: Run) -> io::Result<Run> {
    let piece = listing::turn(file, run);
    rt.write_all(piece.line.text())?;
    Ok(piece.run)
}

fn print_listing(rt: &impl Print, file: &[u8]) -> io::Result<()> {
    let mut run = listing::start();
    for _ in 0..TURNS {
        if listing::is_finished(run) {
            break;
        }
        run = print_piece(rt, file, run)?;
    }
    Ok(())
}

fn main(rt: HostRuntime) -> io::Result<()> {
    let mut space: [u8; ROOM] = zeros();
    let count = read_full(&mut rt.stdin(), &mut space)?;
    print_listing(&rt, &space[..count])
}
