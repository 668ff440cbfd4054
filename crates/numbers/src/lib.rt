// Numbers as bytes, lowest first (01), read and written for every width; bytes copied into a buffer; and the laws of bytes at an
// offset of a list.
#![tactic(auto)]

pub mod copying;

ghost use Rattle.std.specs.Prelude.{◌≡◌, ◌+◌, ◌^◌, ◌≤◌, ◌<◌, length, get_or, take, drop};
ghost use Rattle.std.proofs.lemmas.List.Edits.{sets};
ghost use Rattle.spec_base.specs.Bytes.{le_bytes, le_number, at_most8, number_at};

// The bytes of s from `from` on, at most `count` of them.
pub fn part(s: &[u8], from: usize, count: usize) -> &[u8]
    ensures { result.now ≡ take count (drop from s.now) }
{
    let start = from.min(s.len());
    let n = count.min(s.len() - start);
    &s[start..start + n]
}

// The number that n bytes from index at on are, where all are there.
fn read_le(b: &[u8], at: usize, n: usize) -> u64
    requires { (n ≤ 8) × (at + n ≤ length b.now) }
    ensures value { result ≡ le_number (take n (drop at b.now)) }
    ensures upper_bound { result < 256 ^ n }
{
    let mut x: u64 = 0;
    for &byte in b[at..at + n].iter().rev() {
        x = x * 256 + u64::from(byte);
    }
    x
}

// The number that n bytes from index at on are, at most eight, as far as they are there.
pub fn get_le(b: &[u8], at: usize, n: usize) -> u64
    ensures value { result ≡ number_at at n b.now }
    ensures upper_bound { result < 256 ^ n }
{
    let bytes = part(b, at, n.min(8));
    read_le(bytes, 0, bytes.len())
}

// The byte at an index, or 0 behind the end.
pub fn byte_at(b: &[u8], at: usize) -> u8
    ensures { result ≡ get_or b.now at 0 }
{
    b.get(at).copied().unwrap_or(0)
}

// Writes the n lowest bytes of x from index at on.
pub fn put_le(buf: &mut [u8], at: usize, n: usize, x: u64)
    requires { at + n ≤ length buf.old }
    ensures { buf.new ≡ sets buf.old at (le_bytes n x) }
{
    let mut rest = x;
    for byte in &mut buf[at..at + n] {
        *byte = (rest % 256) as u8;
        rest /= 256;
    }
}
