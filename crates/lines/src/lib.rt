// The lines of a listing (01, 'Bays to run'), each at the end of a buffer of its own: text is put before the text that is there.
#![tactic(auto)]

ghost use Rattle.std.specs.Prelude.{◌+◌, ◌-◌, ◌≤◌, ◌<◌, ◌^◌, ◌≡◌, [], ◌∷◌, ◌++◌, length};
ghost use Rattle.spec_programs.specs.Text.{numeral, digit as Text·digit, newline, input_cut, heading as Text·heading, ending as Text·ending, refusal as Text·refusal};
ghost use Rattle.lines.specs.Buffer.{Prepended};
ghost use Rattle.spec_base.specs.Limits.{word_labels};
ghost use Rattle.spec_base.specs.Widths.{two_words};
ghost use Rattle.lines.specs.Shown.{line_length, most_words, Displays, failure_of};
ghost use Rattle.spec_programs.specs.Listing.{numbers_of, sets_of, line_in};

mod line;

use files::FileError;
use limits::rows::row_number;
pub use line::{LINE_LENGTH, Line};

fn digit(d: u64) -> u8
    requires { d < 16 }
    ensures { result ≡ Text·digit d }
{
    if d < 10 {
        b'0' + d as u8
    } else {
        b'a' + (d as u8 - 10)
    }
}

// Puts the numeral of x with at least `width` digits before `end`, and answers where it begins.
fn put_numeral(line: &mut [u8], end: usize, base: u64, width: usize, x: u64) -> usize
    requires { (1 < base) × (base ≤ 16) × (length (numeral base width x) ≤ end) × (end ≤ length line.old) }
    ensures { Prepended line.old end (numeral base width x) line.new result }
{
    let mut from = end;
    let mut left = width;
    let mut rest = x;
    // The digits are made from the last one on, and the number itself says when there are no more: no iterator counts them.
    while 0 < left || 0 < rest {
        from -= 1;
        line[from] = digit(rest % base);
        rest /= base;
        left = left.saturating_sub(1);
    }
    from
}

// Puts the bytes of a text before `end`, and answers where they begin.
fn put_text(line: &mut [u8], end: usize, text: &[u8]) -> usize
    requires { (length text.now ≤ end) × (end ≤ length line.old) }
    ensures { Prepended line.old end text.now line.new result }
{
    let from = end - text.len();
    line[from..end].copy_from_slice(text);
    from
}

// Puts a numeral and the byte after it before `end`: at most 21 bytes.
fn put_field(line: &mut [u8], end: usize, base: u64, width: usize, x: u64, after: u8) -> usize
    requires { (10 ≤ base) × (base ≤ 16) × (width ≤ 16) × (21 ≤ end) × (end ≤ length line.old) }
    ensures prepended { Prepended line.old end (numeral base width x ++ after ∷ []) line.new result }
    ensures end_bound { end ≤ result + 21 }
{
    let at = put_text(line, end, &[after]);
    put_numeral(line, at, base, width, x)
}

// A line of some words and a decimal number.
pub fn numbered(words: &[u8], number: u64) -> Line
    requires { length words.now ≤ most_words }
    ensures { Displays result (words.now ++ (numeral 10 1 number ++ newline ∷ [])) }
{
    let mut bytes = [0u8; LINE_LENGTH];
    let at = put_field(&mut bytes, LINE_LENGTH, 10, 1, number, b'\n');
    let from = put_text(&mut bytes, at, words);
    Line { bytes, from }
}

// The line for a sequence that the check turns down.
pub fn refusal(number: u8) -> Line
    ensures { Displays result (Text·refusal number) }
{
    numbered(b"refused ", number as u64)
}

// The line for a file that is not whole.
pub fn cut() -> Line
    ensures { Displays result input_cut }
{
    fixed(b"input cut\n")
}

// The line for a file that comes to nothing.
pub fn failure(error: FileError) -> Line
    ensures { Displays result (failure_of error) }
{
    match error {
        FileError::Cut => cut(),
        FileError::Refused(row) => refusal(row_number(row)),
    }
}

// The first line of a run.
pub fn heading() -> Line
    ensures { Displays result Text·heading }
{
    fixed(b"instant code kind place emitted labels\n")
}

// The last line of a run.
pub fn ending() -> Line
    ensures { Displays result Text·ending }
{
    fixed(b"end\n")
}

// No line: an empty text.
pub fn nothing() -> Line
    ensures { Displays result [] }
{
    Line {
        bytes: [0; LINE_LENGTH],
        from: LINE_LENGTH,
    }
}

// A line that never changes.
fn fixed(words: &[u8]) -> Line
    requires { length words.now ≤ line_length }
    ensures { Displays result words.now }
{
    let mut bytes = [0u8; LINE_LENGTH];
    let from = put_text(&mut bytes, LINE_LENGTH, words);
    Line { bytes, from }
}

// The fields of a row that are numerals to the base 10, before `end`.
fn put_numbers(line: &mut [u8], end: usize, instant: u64, code: u64, kind: u64, place: u64) -> usize
    requires { (84 ≤ end) × (end ≤ length line.old) }
    ensures { Prepended line.old end (numbers_of instant code kind place) line.new result }
{
    let mut at = put_field(line, end, 10, 1, place, b' ');
    at = put_field(line, at, 10, 1, kind, b' ');
    at = put_field(line, at, 10, 1, code, b' ');
    put_field(line, at, 10, 1, instant, b' ')
}

// The fields of a row that are sets, at the end of the line. The labels are two words, the second of those from 64 on.
fn put_sets(line: &mut [u8], emitted: u64, low: u64, high: u64) -> usize
    requires { length line.old ≡ line_length }
    ensures prepended { Prepended line.old line_length (sets_of emitted (two_words word_labels low high)) line.new result }
    ensures lower_bound { 84 ≤ result }
{
    let mut at = put_field(line, LINE_LENGTH, 16, 16, low, b'\n');
    at = put_numeral(line, at, 16, 16, high);
    put_field(line, at, 16, 8, emitted, b' ')
}

// The line of an instant, from the records that its tick left.
pub fn instant_line(instant: u64, state: &[u8], answer: &[u8]) -> Line
    ensures { Displays result (line_in instant state.now answer.now) }
{
    let labels = records::labels(state);
    let low = labels::low_word(labels);
    let high = labels::high_word(labels);
    let emitted = records::emitted(answer) as u64;
    let place = records::place(answer) as u64;
    let kind = records::kind(answer) as u64;
    let code = records::code(answer) as u64;
    let mut bytes = [0u8; LINE_LENGTH];
    let at = put_sets(&mut bytes, emitted, low, high);
    let from = put_numbers(&mut bytes, at, instant, code, kind, place);
    Line { bytes, from }
}

// The same of the instant behind i others.
pub fn line_behind(i: usize, state: &[u8], answer: &[u8]) -> Line
    requires { i + 1 < 2 ^ 64 }
    ensures { Displays result (line_in (i + 1) state.now answer.now) }
{
    instant_line(i as u64 + 1, state, answer)
}
