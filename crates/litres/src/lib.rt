// Litres as single-precision numbers (02, item 12): whether 32 bits are a whole number up to 16,777,216, and the laws of sums of
// such numbers.
#![tactic(auto)]

ghost use Rattle.std.specs.Prelude.{◌≡◌, ◌+◌, ◌≤◌, length};
ghost use Rattle.spec_base.specs.Bytes.{number_at};
ghost use Rattle.std.specs.Float.{binary32};
ghost use Rattle.std.specs.Float.Ieee.{of_bits};
ghost use Rattle.spec_base.specs.WholeLitres.{whole};

// Whether the bit pattern v is a whole number from 0 to 2^24, and not minus zero. Decided on the bits as an integer: no NaN is ever made.
pub fn is_whole(v: u32) -> bool
    ensures { result ≡ whole (of_bits binary32 v) }
{
    if v >= 0x4b80_0000 {
        return v == 0x4b80_0000;
    }
    if v < 0x3f80_0000 {
        return v == 0;
    }
    let unit: u32 = 1 << (150 - v / 0x80_0000);
    (0x80_0000 + v % 0x80_0000) % unit == 0
}

// The four bytes at an offset as a pattern, lowest first.
pub fn bits(s: &[u8], at: usize) -> u32
    requires { at + 4 ≤ length s.now }
    ensures { result ≡ number_at at 4 s.now }
{
    u32::from_le_bytes([s[at], s[at + 1], s[at + 2], s[at + 3]])
}
