// The reader (01, 'Commands' and rows 3 to 6): one traversal, into every part of a command. It answers one number: the row that
// turns it down, or the offset behind the statement; a Result would be handed back through memory at each level. Offsets are those of
// the whole sequence.
ghost use Rattle.std.specs.Prelude.{◌≡◌, ℕ, ◌+◌, ◌*◌, ◌≤◌, ◌<◌, List, length};
ghost use Rattle.spec_base.specs.Limits.{max_bytes};
ghost use Rattle.spec_sequence.specs.Commands.{Command, partCount, head_length};
ghost use Rattle.spec_sequence.specs.Reader.{read};
ghost use Rattle.layout.specs.Notes.{no_notes};
ghost use Rattle.layout.specs.Walk.{pair_read, Readable, Done, Packed, row_unit};
ghost use Rattle.limits.specs.Rows.{row_number};
ghost use Rattle.reading.specs.Reading.{Reads};

use crate::leaves::{ahead, leaf};
use crate::steps::{declare, declares, is_choice, is_deep, mark};
use layout::SecondParts;
use limits::rows::Refusal;
use notes::Notes;

// Of a statement that was read: its bytes, and how many more signals may stand around it.
#[derive(Clone, Copy, Debug, PartialEq, Eq)]
pub struct Reading {
    pub bytes: usize,
    pub left: u8,
}

// The first of two parts, at the front of s: one without parts of its own is read here, without recursion.
#[cycle(first_read_two)]
fn first(
    s: &[u8],
    at: usize,
    depth: u8,
    signals: u8,
    second: &mut SecondParts,
    notes: &mut Notes,
) -> usize
    requires { Readable signals at s.now second.old notes.old }
    ensures { Done signals at second.old second.new notes.old notes.new
        (read depth signals at s.now) result }
{
    if let Some(m) = ahead(s, at, depth, notes) {
        return m;
    }
    read(&s[0..], at, depth, signals, second, notes)
}

// The two parts of the command of w bytes at offset `at`; s is behind the command.
#[cycle(first_read_two)]
fn two(
    s: &[u8],
    at: usize,
    w: usize,
    depth: u8,
    signals: u8,
    second: &mut SecondParts,
    notes: &mut Notes,
) -> usize
    requires w_nonzero { 0 < w }
    requires readable { Readable signals (at + w) s.now second.old notes.old }
    ensures { (c : Command) (xs : List ℕ) → partCount c ≡ 2 → w ≡ head_length c
        → Done signals at second.old second.new notes.old notes.new
        (pair_read (read depth signals) c at xs s.now) result }
{
    let m = first(&s[0..], at + w, depth, signals, second, notes);
    if layout::ROW_UNIT <= m {
        return m;
    }
    mark(at, m, notes, second);
    let n = m - at - w;
    read(&s[n..], m, depth, signals, second, notes)
}

// The statement at the front of s, which stands at offset `at`, where `depth` levels and `signals` signal commands are
// still allowed.
#[cycle(first_read_two)]
fn read(
    s: &[u8],
    at: usize,
    depth: u8,
    signals: u8,
    second: &mut SecondParts,
    notes: &mut Notes,
) -> usize
    requires { Readable signals at s.now second.old notes.old }
    ensures { Done signals at second.old second.new notes.old notes.new
        (read depth signals at s.now) result }
{
    if s.len() == 0 {
        return layout::MISSING_ROW;
    }
    let b = s[0];
    if commands::is_leaf(b) {
        return leaf(s, at, b, depth, notes);
    }
    let w = commands::width(s, b);
    if layout::ROW_UNIT <= w {
        return w;
    }
    if is_deep(depth) {
        return layout::DEPTH_ROW;
    }
    // asked before the first call of `two`: behind it they would keep `first` from being inlined, which costs a frame
    let choice = is_choice(b);
    let declaring = declares(b);
    if b < 6 {
        return two(&s[1..], at, 1, depth - 1, signals, second, notes);
    }
    if choice {
        return two(&s[2..], at, 2, depth - 1, signals, second, notes);
    }
    if declaring {
        let Some(left) = declare(signals, notes) else {
            return layout::DEPTH_ROW;
        };
        return read(&s[2..], at + 2, depth - 1, left, second, notes);
    }
    read(&s[w..], at + w, depth - 1, signals, second, notes)
}

// The refusal that the traversal answers by its packed number.
fn refusal_in(answer: usize) -> Refusal
    requires { Packed answer }
    ensures { row_number result * row_unit ≡ answer }
{
    match answer {
        layout::COMMAND_ROW => Refusal::Command,
        layout::MISSING_ROW => Refusal::Missing,
        layout::OPERAND_ROW => Refusal::Operand,
        layout::DEPTH_ROW => Refusal::Depth,
        _ => Refusal::Litres,
    }
}

// The statement at the front of a sequence, with the table of its second parts and the notes of its labels.
pub fn read_sequence(
    s: &[u8],
    second: &mut SecondParts,
    notes: &mut Notes,
) -> Result<Reading, Refusal>
    requires s_len_bound { length s.now ≤ max_bytes }
    requires second_len { length second.old ≡ max_bytes }
    requires notes_value { notes.old ≡ no_notes }
    ensures { Reads s.now second.new notes.new result }
{
    let m = read(
        &s[0..],
        0,
        limits::MAX_DEPTH,
        limits::MAX_SIGNALS,
        second,
        notes,
    );
    if layout::ROW_UNIT <= m {
        return Err(refusal_in(m));
    }
    Ok(Reading {
        bytes: m,
        left: limits::MAX_SIGNALS - notes::most(notes),
    })
}
