// A call of the tick (01): the lengths of its buffers (row 1), the check, what a state record holds (rows 11 and 12), the reply of the
// core, which is a value, and both records, which are written last.
#![tactic(auto)]

ghost use Rattle.std.specs.Prelude.{◌≡◌, length, replicate, ◌&&◌, eqb};
ghost use Rattle.spec_base.specs.Limits.{max_bytes, farm_count};
ghost use Rattle.spec_tick.specs.StateRecord.{state_length};
ghost use Rattle.spec_tick.specs.AnswerRecord.{answer_length};
ghost use Rattle.spec_tick.specs.Tick.{outcome};
ghost use Rattle.instants.specs.Written.{Writable, writtenFrom};
ghost use Rattle.layout.specs.Known.{Sound};
ghost use Rattle.layout.specs.Notes.{no_notes};
ghost use Rattle.instants.specs.Replies.{DecodesRead, CallStands, Replies};
ghost use Rattle.instants.specs.Delivering.{Delivers};
ghost use Rattle.spec_tick.specs.Demands.{TickMeets};
ghost use Rattle.limits.specs.Rows.{call_number};

use layout::SecondParts;
use limits::rows::Refusal;
use notes::Notes;
use program::Start;
use reaction::{Completion, Deliveries, Reaction};
use records::{ANSWER_LENGTH, STATE_LENGTH};

// Writes both records of an instant.
pub fn finish(state: &mut [u8], answer: &mut [u8], r: Reaction)
    requires { (length state.old ≡ state_length) × (length answer.old ≡ answer_length) × Writable r }
    ensures { outcome 0 state.new answer.new ≡ writtenFrom r }
{
    let k = r.completion;
    match k {
        Completion::Ended => {
            records::write_state(state, records::OVER, labels::empty());
            records::write_answer(answer, 0, 0, 0, r.emitted, r.reactions);
        }
        Completion::Waiting => {
            records::write_state(state, records::WAITING, r.labels);
            records::write_answer(answer, 1, 0, 0, r.emitted, r.reactions);
        }
        Completion::Leaving(n) => {
            records::write_state(state, records::OVER, labels::empty());
            records::write_answer(answer, n + 1, 0, 0, r.emitted, r.reactions);
        }
        Completion::Wrong(kind, place) => {
            records::write_state(state, records::OVER, labels::empty());
            records::write_answer(answer, records::WRONG, kind, place, 0, r.reactions);
        }
    }
}

// What a call comes to before it reacts: the row that turns it down, or where its sequence starts.
pub type Standing = Result<Start, Refusal>;

// The standing of a state record, by what reading the sequence noted.
fn decode(sequence: &[u8], second: &SecondParts, notes: &Notes, state: &[u8]) -> Standing
    requires { Sound second.now notes.now sequence.now }
    ensures { DecodesRead second.now notes.now sequence.now state.now result }
{
    let phase = records::phase(state);
    let labels = records::labels(state);
    if phase == records::WAITING {
        let active = validity::valid_ranks(sequence, second, notes, labels).ok_or(
            Refusal::Malformed,
        )?;
        return Ok(Start::Waiting(active));
    }
    if labels::is_empty(labels) {
        if phase == records::FRESH {
            return Ok(Start::Fresh);
        }
        if phase == records::OVER {
            return Err(Refusal::Over);
        }
    }
    Err(Refusal::Malformed)
}

// The check, and then the state record. Of a call that is not turned down the table of second parts and the notes of labels are left.
pub fn begin(
    sequence: &[u8],
    state: &[u8],
    read_back: u32,
    second: &mut SecondParts,
    notes: &mut Notes,
) -> Standing
    requires second_len { length second.old ≡ max_bytes }
    requires notes_value { notes.old ≡ no_notes }
    ensures { CallStands sequence.now state.now read_back second.new notes.new result }
{
    checks::check(sequence, read_back, second, notes)?;
    decode(sequence, second, notes, state)
}

// What a call comes to before anything is written: the row that turns it down, or its reaction.
pub type Reply = Result<Reaction, Refusal>;

// The core of a tick, a bay's too: the reply, the farms that the sequence names, and the litres of each farm, up to one more than the
// limit (02, item 12). A call that is turned down leaves `farms` as it was.
pub fn reply_to(
    sequence: &[u8],
    state: &[u8],
    input: u32,
    read_back: u32,
    farms: &mut u32,
    litres: &mut Deliveries,
) -> Reply
    requires { litres.old ≡ replicate farm_count 0 }
    ensures replies { Replies sequence.now state.now input read_back result }
    ensures delivers { Delivers sequence.now state.now input read_back
        farms.new litres.new }
{
    let mut second: SecondParts = [0; limits::MAX_BYTES];
    let mut notes: Notes = [0; notes::LENGTH];
    let start = begin(sequence, state, read_back, &mut second, &mut notes)?;
    *farms = notes::farms(&notes);
    Ok(program::instant(sequence, start, input, read_back, litres, &second))
}

// Whether the state and the answer record have their lengths (row 1).
fn fit(state: usize, answer: usize) -> bool
    ensures { result ≡ (eqb state state_length && eqb answer answer_length) }
{
    state == STATE_LENGTH && answer == ANSWER_LENGTH
}

// The tick; its litres are not told.
pub fn tick(
    sequence: &[u8],
    state: &mut [u8],
    input: u32,
    read_back: u32,
    answer: &mut [u8],
) -> Result<(), Refusal>
    ensures { TickMeets (call_number result) state.new answer.new
        sequence.now state.old input read_back answer.old }
{
    if !fit(state.len(), answer.len()) {
        return Err(Refusal::Length);
    }
    let mut farms: u32 = 0;
    let mut litres: Deliveries = [0; limits::FARMS];
    let reaction = reply_to(sequence, state, input, read_back, &mut farms, &mut litres)?;
    finish(state, answer, reaction);
    Ok(())
}
