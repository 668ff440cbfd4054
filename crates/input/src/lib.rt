// Reads what a program is given on a stream, into a buffer.
#![tactic(auto)]

ghost use Rattle.std.specs.Prelude.{◌≡◌, ℕ, ◌≤◌, length, slice_index, IfOk};

use std::io;
use std::io::Read;

// So many zeros: their number and what each is, and no list of them, so that a buffer of four million is not counted one by one.
pub fn zeros<const N: usize>() -> [u8; N]
    ensures count { N ≡ length result }
    ensures all_zero { (k : ℕ) → slice_index result k ≡ 0 }
{
    [0; N]
}

// Reads until the buffer is full or the input ends, and answers how many bytes stand at its front. An Err is a failed read; the
// buffer then keeps what came before it.
pub fn read_full<R: Read>(input: &mut R, buffer: &mut [u8]) -> io::Result<usize>
    ensures { IfOk result (λ n. n ≤ length buffer.new) }
{
    let mut count = 0;
    // Each read says how far the count goes, so no iterator gives the steps.
    while count < buffer.len() {
        let more = input.read(&mut buffer[count..])?;
        if more == 0 {
            break;
        }
        count += more;
    }
    Ok(count)
}
