// How vectors are written: the numbers, words and bytes that a line of their file gives, and the lines that are printed.
#![tactic(auto)]

pub mod print;
pub mod scan;

ghost use Rattle.std.specs.Prelude.{◌<◌, ◌≤◌, min, ◌+◌, ◌≡◌, ◌⊎◌, length};
ghost use Rattle.std.specs.Option.{unwrap_or, IfSome};
ghost use Rattle.vectors_notation.specs.Digits.{not_a_digit, no_number, digit_of, extended_by, number_in};
ghost use Rattle.vectors_notation.specs.Words.{word_value, word_end};
ghost use Rattle.vectors_notation.specs.Room.{room_length, holds, held_or_malformed, zeroed, pushed, appended, repeated};

// The digit that a byte is, 0 to 9 and A to F.
#[tactic(auto, unfolding(crate::specs::Digits::digit_of))]
fn digit(byte: u8) -> Option<u64>
    ensures { unwrap_or result not_a_digit ≡ digit_of byte }
{
    match byte {
        b'0'..=b'9' => Some(byte as u64 - 48),
        b'A'..=b'F' => Some(byte as u64 - 55),
        _ => None,
    }
}

// The number that `value` becomes with one digit more behind it; it has at most eight digits.
#[tactic(auto, unfolding(crate::specs::Digits::extended_by))]
fn extended(value: u32, byte: u8, base: u64) -> Option<u32>
    requires { base ≤ 16 }
    ensures { unwrap_or result no_number ≡ extended_by base value byte }
{
    let d = digit(byte)?;
    if base <= d || 0x10000000 <= value {
        return None;
    }
    Some((value as u64 * base + d) as u32)
}

// The number whose digits to the base stand behind a space at `at` and before `end`.
pub fn number(line: &[u8], at: usize, end: usize, base: u64) -> Option<u32>
    requires { (at < end) × (end ≤ length line.now) × (base ≤ 16) }
    ensures { unwrap_or result no_number ≡ number_in base line.now at end }
{
    if line[at] != b' ' || at + 1 == end {
        return None;
    }
    let mut value = 0;
    for byte in &line[at + 1..end] {
        value = extended(value, *byte, base)?;
    }
    Some(value)
}

// The number that a word is, and where the word ends.
#[derive(Clone, Copy, Debug, PartialEq, Eq)]
pub struct Parsed {
    pub value: Option<u32>,
    pub end: usize,
}

// The number to the base 16 whose word begins at `at`.
pub fn word(line: &[u8], at: usize) -> Parsed
    ensures value_value { (unwrap_or result.value no_number ≡ word_value line.now at) × (result.end ≡ word_end line.now at) }
    ensures line_bound { (min (at + 1) (length line.now) ≤ result.end) × (result.end ≤ length line.now) }
{
    if line.len() <= at {
        return Parsed {
            value: None,
            end: line.len(),
        };
    }
    let end = scan::find(line, at + 1, line.len(), b' ');
    Parsed {
        value: number(line, at, end, 16),
        end,
    }
}

// Space for the longest sequence that a vector has, and more.
pub const ROOM: usize = 2048;

// The first `count` bytes of the buffer. No ArrayVec: `zeros` promises each count, also one above ROOM, which an ArrayVec cannot have.
#[derive(Clone, Copy, Debug, PartialEq, Eq)]
pub struct Bytes {
    pub room: [u8; ROOM],
    pub count: usize,
}

#[tactic(auto, unfolding(crate::specs::Room::zeroed))]
pub fn zeros(count: usize) -> Bytes
    ensures { holds result ≡ zeroed count }
{
    Bytes {
        room: [0; ROOM],
        count,
    }
}

// One byte more; a malformed line gives none.
fn push(mut bytes: Bytes, value: Option<u32>) -> Option<Bytes>
    ensures held { held_or_malformed result ≡ pushed (holds bytes) (unwrap_or value no_number) }
    ensures fits { IfSome result (λ b. b.count ≤ room_length) }
{
    let byte = u8::try_from(value?).ok()?;
    let count = bytes.count;
    if ROOM <= count {
        return None;
    }
    bytes.room[count] = byte;
    bytes.count = count + 1;
    Some(bytes)
}

// The bytes before, and those that the line names from `from` on; none where it is malformed.
pub fn append(line: &[u8], from: usize, before: Bytes) -> Option<Bytes>
    ensures held { held_or_malformed result ≡ appended line.now from (holds before) }
    ensures fits { IfSome result (λ b. (b ≡ before) ⊎ (b.count ≤ room_length)) }
{
    let mut after = before;
    let mut at = from;
    // Each step goes on to the end of a word, so no index is counted that a `for` would spare.
    while at < line.len() {
        let word = word(line, at);
        after = push(after, word.value)?;
        at = word.end;
    }
    Some(after)
}

// The bytes before, and as often as the line says at `from`, those that it names behind that number; none where it is malformed.
pub fn repeat(line: &[u8], from: usize, before: Bytes) -> Option<Bytes>
    ensures held { held_or_malformed result ≡ repeated line.now from (holds before) }
    ensures fits { IfSome result (λ b. (b ≡ before) ⊎ (b.count ≤ room_length)) }
{
    if line.len() <= from {
        return None;
    }
    let end = scan::find(line, from + 1, line.len(), b' ');
    let times = number(line, from, end, 10)?;
    if ROOM <= times as usize {
        return None;
    }
    let mut after = before;
    for _ in 0..times {
        after = append(line, end, after)?;
    }
    Some(after)
}
