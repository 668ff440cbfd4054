// The records of a machine and of an instant as bytes (01, 'States and resuming'; 02, items 6, 7 and 10): state record, answer
// record, the record of an instant and what a panel shows of it; where each field begins, and functions that read and write it.
#![tactic(auto)]

ghost use Rattle.std.specs.Prelude.{◌≡◌, ◌+◌, ◌≤◌, length};
ghost use Rattle.std.proofs.lemmas.List.Edits.{sets};
ghost use Rattle.spec_base.specs.Limits.{label_bytes};
ghost use Rattle.labels.specs.Labels.{label_set};
ghost use Rattle.spec_base.specs.Bytes.{le_bytes, replaced};
ghost use Rattle.spec_tick.specs.StateRecord.{phase_in, labels_from, labels_in, state_record, state_length};
ghost use Rattle.spec_tick.specs.AnswerRecord.{code_in, kind_in, place_in, emitted_in, reactions_in, answer_record, answer_length};
ghost use Rattle.spec_tick.specs.Record.{number_in, input_in, answer_in, record_of, panel_bytes, panel_of};
ghost use Rattle.spec_tick.specs.Recording.{following};

use labels::Labels;
use limits::{LABEL_BYTES, NUMBER_BYTES, PLACE_BYTES, REACTIONS_BYTES, SIGNAL_BYTES, WORD_BYTES};

// The phases of a state record (01, 'States and resuming'). They stay bytes of the format: an enum would narrow what `write_state` takes.
pub const FRESH: u8 = 0;

pub const WAITING: u8 = 1;

pub const OVER: u8 = 2;

// Where the label set begins.
pub const LABELS_AT: usize = 1;

pub const STATE_LENGTH: usize = LABELS_AT + LABEL_BYTES;

pub fn phase(state: &[u8]) -> u8
    ensures { result ≡ phase_in state.now }
{
    numbers::byte_at(state, 0)
}

// The label set at any offset of a buffer, of the bytes that are there.
fn labels_at(buffer: &[u8], at: usize) -> Labels
    ensures { label_set result ≡ labels_from at buffer.now }
{
    let bytes = numbers::part(buffer, at, LABEL_BYTES);
    let low = numbers::get_le(bytes, 0, WORD_BYTES);
    let high = numbers::get_le(bytes, WORD_BYTES, WORD_BYTES);
    labels::from_words(low, high)
}

pub fn labels(state: &[u8]) -> Labels
    ensures { label_set result ≡ labels_in state.now }
{
    labels_at(state, LABELS_AT)
}

// Writes a label set at any offset of a buffer that has space for it.
fn put_labels(buffer: &mut [u8], at: usize, labels: Labels)
    requires { at + label_bytes ≤ length buffer.old }
    ensures { buffer.new ≡ sets buffer.old at (le_bytes label_bytes (label_set labels)) }
{
    numbers::put_le(buffer, at, WORD_BYTES, labels::low_word(labels));
    let high_at = at + WORD_BYTES;
    numbers::put_le(buffer, high_at, WORD_BYTES, labels::high_word(labels));
}

// Writes a state record; a buffer of another length is left as it is. The writers that begin with this test stay apart: what
// they store differs, and a closure for it would be no plainer.
pub fn write_state(state: &mut [u8], phase: u8, labels: Labels)
    ensures { state.new ≡ replaced state.old (state_record phase (label_set labels)) }
{
    if state.len() != STATE_LENGTH {
        return;
    }
    state[0] = phase;
    put_labels(state, LABELS_AT, labels);
}

// The code of a wrong instant: a byte of the format, as the other codes are.
pub const WRONG: u8 = 255;

// Where the fields of several bytes begin.
pub const PLACE_AT: usize = 2;

pub const EMITTED_AT: usize = PLACE_AT + PLACE_BYTES;

pub const REACTIONS_AT: usize = EMITTED_AT + SIGNAL_BYTES;

pub const ANSWER_LENGTH: usize = REACTIONS_AT + REACTIONS_BYTES;

pub fn code(answer: &[u8]) -> u8
    ensures { result ≡ code_in answer.now }
{
    numbers::byte_at(answer, 0)
}

pub fn kind(answer: &[u8]) -> u8
    ensures { result ≡ kind_in answer.now }
{
    numbers::byte_at(answer, 1)
}

pub fn place(answer: &[u8]) -> u16
    ensures { result ≡ place_in answer.now }
{
    numbers::get_le(answer, PLACE_AT, PLACE_BYTES) as u16
}

pub fn emitted(answer: &[u8]) -> u32
    ensures { result ≡ emitted_in answer.now }
{
    numbers::get_le(answer, EMITTED_AT, SIGNAL_BYTES) as u32
}

pub fn reactions(answer: &[u8]) -> u32
    ensures { result ≡ reactions_in answer.now }
{
    numbers::get_le(answer, REACTIONS_AT, REACTIONS_BYTES) as u32
}

// Writes an answer record; a buffer of another length is left as it is.
pub fn write_answer(answer: &mut [u8], code: u8, kind: u8, place: u16, emitted: u32, reactions: u32)
    ensures { answer.new ≡ replaced answer.old (answer_record code kind place emitted reactions) }
{
    if answer.len() != ANSWER_LENGTH {
        return;
    }
    answer[0] = code;
    answer[1] = kind;
    numbers::put_le(answer, PLACE_AT, PLACE_BYTES, place as u64);
    numbers::put_le(answer, EMITTED_AT, SIGNAL_BYTES, emitted as u64);
    numbers::put_le(answer, REACTIONS_AT, REACTIONS_BYTES, reactions as u64);
}

// Where the fields begin.
pub const INPUT_AT: usize = NUMBER_BYTES;

pub const ANSWER_AT: usize = INPUT_AT + SIGNAL_BYTES;

pub const STATE_AT: usize = ANSWER_AT + ANSWER_LENGTH;

pub const RECORD_LENGTH: usize = STATE_AT + STATE_LENGTH;

pub const PANEL_INPUT_AT: usize = NUMBER_BYTES + 1;

pub const PANEL_EMITTED_AT: usize = PANEL_INPUT_AT + SIGNAL_BYTES;

pub const PANEL_LENGTH: usize = PANEL_EMITTED_AT + SIGNAL_BYTES;

// The number of the next instant. The greatest one is the greatest of its type.
pub fn following(number: u32) -> u32
    ensures { result ≡ following number }
{
    number.saturating_add(1)
}

fn number(record: &[u8]) -> u32
    ensures { result ≡ number_in «record».now }
{
    numbers::get_le(record, 0, NUMBER_BYTES) as u32
}

pub fn input(record: &[u8]) -> u32
    ensures { result ≡ input_in «record».now }
{
    numbers::get_le(record, INPUT_AT, SIGNAL_BYTES) as u32
}

fn answer(record: &[u8]) -> &[u8]
    ensures { result.now ≡ answer_in «record».now }
{
    numbers::part(record, ANSWER_AT, ANSWER_LENGTH)
}

// Writes the record of an instant; a buffer of another length is left as it is.
pub fn write_record(buf: &mut [u8], number: u32, input: u32, answer: &[u8], state: &[u8])
    requires { (length answer.now ≡ answer_length) × (length state.now ≡ state_length) }
    ensures { buf.new ≡ replaced buf.old (record_of number input answer.now state.now) }
{
    if buf.len() != RECORD_LENGTH {
        return;
    }
    numbers::put_le(buf, 0, NUMBER_BYTES, number as u64);
    numbers::put_le(buf, INPUT_AT, SIGNAL_BYTES, input as u64);
    numbers::copying::put_bytes(buf, ANSWER_AT, answer);
    numbers::copying::put_bytes(buf, STATE_AT, state);
}

// The record whole, for service. A buffer of another length is left as it is.
pub fn write_service(view: &mut [u8], record: &[u8])
    ensures { view.new ≡ replaced view.old «record».now }
{
    if view.len() != record.len() {
        return;
    }
    numbers::copying::put_bytes(view, 0, record);
}

// A panel's bytes. A buffer of another length is left as it is.
fn show(view: &mut [u8], number: u32, code: u8, inputs: u32, emitted: u32)
    ensures { view.new ≡ replaced view.old (panel_bytes number code inputs emitted) }
{
    if view.len() != PANEL_LENGTH {
        return;
    }
    numbers::put_le(view, 0, NUMBER_BYTES, number as u64);
    view[NUMBER_BYTES] = code;
    numbers::put_le(view, PANEL_INPUT_AT, SIGNAL_BYTES, inputs as u64);
    numbers::put_le(view, PANEL_EMITTED_AT, SIGNAL_BYTES, emitted as u64);
}

// What a panel shows of a record, service-only signals cleared in both sets.
pub fn write_panel(view: &mut [u8], record: &[u8], service_only: u32)
    ensures { view.new ≡ replaced view.old (panel_of service_only «record».now) }
{
    let told = answer(record);
    let code = code(told);
    let inputs = signals::difference(input(record), service_only);
    let emitted = signals::difference(emitted(told), service_only);
    show(view, number(record), code, inputs, emitted);
}
