// The bytes of a statement with its loops written out (02, item 13), put into a buffer one behind the other. A loop's body is copied
// command by command: nothing of a copy depends on where the parts of its commands begin.
ghost use Rattle.std.specs.Prelude.{◌≡◌, ◌-◌, ◌≤◌, length, unwrap_or};
ghost use Rattle.layout.specs.Layout.{rest};
ghost use Rattle.unroll_call.specs.Writing.{Writable, Writes, WritableTwo, WritesTwo, WritableLoop, WritesLoop};
ghost use Rattle.unroll_call.specs.Copying.{CopyReady, CopyPut};

use crate::heads::{copied, own, put_two};
use layout::SecondParts;

// A count of operand bytes or of parts. Matched here: by `unwrap_or` in `copy` the writing of loops takes 1.6 times as long.
fn number(count: Option<u8>) -> usize
    ensures { result ≡ unwrap_or count 0 }
{
    match count {
        None => 0,
        Some(n) => n as usize,
    }
}

// Puts the copy of the statement from s[1] on. `left` statements are still to copy, one behind the other from s[at] on: each command says
// how far `at` goes and how many parts join `left`, so no range or iterator counts the turns.
fn copy(s: &[u8], i: usize, buffer: &mut [u8]) -> usize
    requires { CopyReady (rest 1 s.now) i buffer.old }
    ensures { CopyPut (rest 1 s.now) i buffer.old buffer.new result }
{
    let mut at: usize = 1;
    let mut to = i;
    let mut left: usize = 1;
    while 0 < left {
        let b = s[at];
        let n = number(commands::operand_count(b));
        to = copied(s, at, n, to, buffer);
        at = at + 1 + n;
        left = left - 1 + number(commands::part_count(b));
    }
    to
}

// Puts the statement at the front of s, which stands at the offset `at`, worked through.
#[cycle(looped_part_parts_write)]
pub fn write(
    s: &[u8],
    at: usize,
    depth: u8,
    second: &SecondParts,
    i: usize,
    buffer: &mut [u8],
) -> usize
    requires { Writable second.now depth at s.now i buffer.old }
    ensures { Writes second.now depth at s.now i buffer.old buffer.new result }
{
    let command = s[0];
    match command {
        limits::NOTHING => own::<1>(s, 0, i, buffer),
        limits::SEQUENCE | limits::PARALLEL => {
            parts(s, at, 1, depth, second, own::<1>(s, 0, i, buffer), buffer)
        }
        limits::LOOP => looped(s, at + 1, depth - 1, second, i, buffer),
        limits::PRESENT => parts(s, at, 2, depth, second, own::<2>(s, 0, i, buffer), buffer),
        limits::SIGNAL | limits::SUSPEND => {
            let j = own::<2>(s, 0, i, buffer);
            part(s, 2, at + 2, depth - 1, second, j, buffer)
        }
        limits::TRY => {
            let j = own::<1>(s, 0, i, buffer);
            part(s, 1, at + 1, depth - 1, second, j, buffer)
        }
        limits::DELIVER => own::<6>(s, 0, i, buffer),
        _ => own::<2>(s, 0, i, buffer),
    }
}

// The same of the part from s[n] on, which stands at the offset `at`.
#[cycle(looped_part_parts_write)]
fn part(
    s: &[u8],
    n: usize,
    at: usize,
    depth: u8,
    second: &SecondParts,
    i: usize,
    buffer: &mut [u8],
) -> usize
    requires n_in_bounds { n ≤ length s.now }
    requires writable { Writable second.now depth at (rest n s.now) i buffer.old }
    ensures { Writes second.now depth at (rest n s.now)
        i buffer.old buffer.new result }
{
    write(&s[n..], at, depth, second, i, buffer)
}

// The same of the two parts of the command of w bytes at the front of s, which stands at the offset `at`.
#[cycle(looped_part_parts_write)]
fn parts(
    s: &[u8],
    at: usize,
    w: usize,
    depth: u8,
    second: &SecondParts,
    i: usize,
    buffer: &mut [u8],
) -> usize
    requires { WritableTwo second.now (depth - 1) at w s.now i buffer.old }
    ensures { WritesTwo second.now (depth - 1) at w s.now
        i buffer.old buffer.new result }
{
    let m = second[at] as usize;
    let j = part(s, w, at + w, depth - 1, second, i, buffer);
    part(s, m - at, m, depth - 1, second, j, buffer)
}

// The same of the loop at the front of s, whose part stands at the offset `at`: the loop over the copy of its body and the body worked
// through.
#[cycle(looped_part_parts_write)]
fn looped(
    s: &[u8],
    at: usize,
    depth: u8,
    second: &SecondParts,
    i: usize,
    buffer: &mut [u8],
) -> usize
    requires in_bounds { 1 ≤ length s.now }
    requires writable_loop { WritableLoop second.now depth at (rest 1 s.now) i buffer.old }
    ensures { WritesLoop second.now depth at (rest 1 s.now)
        i buffer.old buffer.new result }
{
    let j = put_two(6, 4, i, buffer);
    let k = copy(s, j, buffer);
    part(s, 1, at, depth, second, k, buffer)
}
