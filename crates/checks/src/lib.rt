// The check of a sequence with a read-back set (01, rows 2 to 10; 02, row 18): reading first, then the other rows in their order.
// It leaves the table of second parts and the notes of an accepted sequence.
#![tactic(auto)]

ghost use Rattle.spec_base.specs.Limits.{max_depth, max_bytes, signal_count, depth_row, behind_row};
ghost use Rattle.wellformed.specs.Survey.{Standing};
ghost use Rattle.checks.specs.Labelling.{ByLabels};
ghost use Rattle.std.specs.Prelude.{◌≡◌, ◌&&◌, cond, leb, ltb, length};
ghost use Rattle.spec_base.specs.Sets.{members_from};
ghost use Rattle.layout.specs.Notes.{no_notes};
ghost use Rattle.checks.specs.Verdict.{Judged};
ghost use Rattle.spec_sequence.specs.Check.{check_of};
ghost use Rattle.limits.specs.Rows.{call_number};

use layout::SecondParts;
use limits::rows::Refusal;
use notes::Notes;

// The first of rows 8, 9 and 10 that holds turns the sequence down. Without setpauses neither row 9 nor row 10 can.
fn label_rules(s: &[u8], notes: &Notes) -> Result<(), Refusal>
    requires { Standing max_depth 0 s.now }
    ensures { ByLabels s.now notes.now (call_number result) }
{
    if !notes::is_distinct(notes) {
        return Err(Refusal::Twice);
    }
    let setpauses = notes::setpauses(notes);
    if labels::is_empty(setpauses) {
        return Ok(());
    }
    let pauses = notes::pauses(notes);
    if !labels::subset(setpauses, pauses) {
        return Err(Refusal::Unpaused);
    }
    if !wellformed::triggers::is_well_formed(s, pauses) {
        return Err(Refusal::Form);
    }
    Ok(())
}

// Whether a sequence of n bytes is within row 2: not empty, and no longer than is allowed.
fn is_sized(n: usize) -> bool
    ensures { result ≡ (leb 1 n && leb n max_bytes) }
{
    (1..=limits::MAX_BYTES).contains(&n)
}

// Rows 6 and 7 of a sequence of `bytes` bytes whose statement has n; `left` more signals may stand around it.
fn after_reading(n: usize, left: u8, bytes: usize, read_back: u32) -> Result<(), Refusal>
    ensures { call_number result ≡ cond (ltb left (length (members_from signal_count 0 read_back))) depth_row (cond (ltb n bytes) behind_row 0) }
{
    if left < signals::size(read_back) {
        return Err(Refusal::Depth);
    }
    if n < bytes {
        return Err(Refusal::Behind);
    }
    Ok(())
}

// Turns the sequence down by the first row that holds.
pub fn check(
    s: &[u8],
    read_back: u32,
    second: &mut SecondParts,
    notes: &mut Notes,
) -> Result<(), Refusal>
    requires second_len { length second.old ≡ max_bytes }
    requires notes_value { notes.old ≡ no_notes }
    ensures { Judged s.now read_back second.new notes.new (call_number result) }
{
    if !is_sized(s.len()) {
        return Err(Refusal::Bytes);
    }
    let read = reading::reader::read_sequence(s, second, notes)?;
    after_reading(read.bytes, read.left, s.len(), read_back)?;
    label_rules(s, notes)
}

// The verdict alone, for a caller that does not react.
pub fn verdict(sequence: &[u8], read_back: u32) -> Result<(), Refusal>
    ensures { call_number result ≡ check_of sequence.now read_back }
{
    let mut second: SecondParts = [0; limits::MAX_BYTES];
    let mut notes: Notes = [0; notes::LENGTH];
    check(sequence, read_back, &mut second, &mut notes)
}
