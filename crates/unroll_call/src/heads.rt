// The own bytes of a command put into a buffer (02, item 13), as they are or as a copy has them.
ghost use Rattle.std.specs.Prelude.{◌≡◌, [], ◌∷◌, ◌+◌, ◌≤◌, length, get_or};
ghost use Rattle.spec_sequence.specs.Commands.{bytes_at};
ghost use Rattle.unroll_call.specs.Putting.{Put, Room, copied_byte, copied_head, Operands, Copyable};

// Puts one byte at index i, and answers the index behind it.
fn put_one(x: u8, i: usize, buffer: &mut [u8]) -> usize
    requires { Room i 1 buffer.old }
    ensures { Put i (x ∷ []) buffer.old buffer.new result }
{
    buffer[i] = x;
    i + 1
}

pub fn put_two(x: u8, y: u8, i: usize, buffer: &mut [u8]) -> usize
    requires { Room i 2 buffer.old }
    ensures { Put i (x ∷ y ∷ []) buffer.old buffer.new result }
{
    let j = put_one(x, i, buffer);
    put_one(y, j, buffer)
}

// Puts the N bytes of s from s[at] on. N is a constant: over a count that varies, the loop may become a call of memcpy, and the header
// promises memset alone.
pub fn own<const N: usize>(s: &[u8], at: usize, i: usize, buffer: &mut [u8]) -> usize
    requires in_bounds { at + N ≤ length s.now }
    requires room { Room i N buffer.old }
    ensures { Put i (bytes_at at N s.now) buffer.old buffer.new result }
{
    for k in 0..N {
        buffer[i + k] = s[at + k];
    }
    i + N
}

// The command byte b in a copy: that of a setpause for a pause.
fn copied_byte(b: u8) -> u8
    ensures { result ≡ copied_byte b }
{
    if b == limits::PAUSE {
        limits::SETPAUSE
    } else {
        b
    }
}

// Puts the n operand bytes of a command from s[at] on.
fn operands(s: &[u8], at: usize, n: usize, i: usize, buffer: &mut [u8]) -> usize
    requires { Operands at n s.now i buffer.old }
    ensures { Put i (bytes_at at n s.now) buffer.old buffer.new result }
{
    match n {
        0 => i,
        1 => own::<1>(s, at, i, buffer),
        _ => own::<5>(s, at, i, buffer),
    }
}

// Puts the own bytes of the command at s[at], with n operand bytes, as a copy has them: none of a loop.
pub fn copied(s: &[u8], at: usize, n: usize, i: usize, buffer: &mut [u8]) -> usize
    requires { Copyable at n s.now i buffer.old }
    ensures { Put i (copied_head (get_or s.now at 0) (bytes_at (at + 1) n s.now))
        buffer.old buffer.new result }
{
    let b = s[at];
    if b == limits::LOOP {
        return i;
    }
    let j = put_one(copied_byte(b), i, buffer);
    operands(s, at + 1, n, j, buffer)
}
