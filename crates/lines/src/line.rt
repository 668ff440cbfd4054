// A line in a buffer of its own.
ghost use Rattle.std.specs.Prelude.{◌≤◌, ◌≡◌, length, drop};

// The bytes of a line's buffer.
pub const LINE_LENGTH: usize = 160;

// A line: its text is the bytes from `from` on. The greatest takes at most 138 bytes.
#[derive(Clone, Copy, Debug, PartialEq, Eq)]
pub struct Line {
    pub bytes: [u8; LINE_LENGTH],
    pub from: usize,
    pub ghost within: { from ≤ length bytes },
}

impl Line {
    pub fn text(&self) -> &[u8]
        ensures { result.now ≡ drop self.now.from self.now.bytes }
    {
        &self.bytes[self.from..]
    }
}
