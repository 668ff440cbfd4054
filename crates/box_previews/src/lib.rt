// A preview of an instant, some of whose inputs have no known status (02, item 11): the sequence is checked and the state read
// once, then an instant is found for each filling that can differ, and the findings are put together.
#![tactic(auto)]

ghost use Rattle.std.specs.Prelude.{◌≡◌, length};
ghost use Rattle.spec_bay.specs.Preview.{alone, shared_by, both, preview_length, preview_bytes, found_in, findings, previewed, shown_by, preview_of};
ghost use Rattle.spec_base.specs.Sets.{Disjoint};
ghost use Rattle.spec_tick.specs.Demands.{answer_afterwards};
ghost use Rattle.program.specs.Program.{ReactedWithoutLitres};
ghost use Rattle.instants.specs.Written.{Writable, writtenFrom};
ghost use Rattle.box_previews.specs.Standing.{answers_at, Stands, OfEach};
ghost use Rattle.limits.specs.Rows.{call_number};

use layout::SecondParts;
use limits::SIGNAL_BYTES;
use limits::rows::Refusal;
use notes::Notes;
use program::Start;
use reaction::{Completion, Reaction};
use spec_bay::Findings;

// Where the fields of a preview begin (02, item 11), and its length.
pub const NEVER_AT: usize = SIGNAL_BYTES;

pub const WRONG_AT: usize = NEVER_AT + SIGNAL_BYTES;

pub const PREVIEW_LENGTH: usize = WRONG_AT + 2;

// The code of fillings that do not share one: a byte of the format.
const OPEN: u8 = 254;

// The findings of one filling, from what its instant reports.
fn alone(emitted: u32, code: u8) -> Findings
    ensures { result ≡ alone emitted code }
{
    Findings {
        every: emitted,
        some: emitted,
        wrong: code == records::WRONG,
        code,
    }
}

// An `if` of one line, which no method of the library says shorter.
fn shared(k: u8, l: u8) -> u8
    ensures { result ≡ shared_by k l }
{
    if k == l { k } else { OPEN }
}

fn both(x: Findings, y: Findings) -> Findings
    ensures { result ≡ both x y }
{
    Findings {
        every: signals::common(x.every, y.every),
        some: signals::union(x.some, y.some),
        wrong: x.wrong || y.wrong,
        code: shared(x.code, y.code),
    }
}

fn write(buffer: &mut [u8], x: Findings)
    requires { length buffer.old ≡ preview_length }
    ensures { buffer.new ≡ preview_bytes x }
{
    let never = signals::complement(x.some);
    numbers::put_le(buffer, 0, SIGNAL_BYTES, x.every as u64);
    numbers::put_le(buffer, NEVER_AT, SIGNAL_BYTES, never as u64);
    buffer[WRONG_AT] = u8::from(x.wrong);
    buffer[WRONG_AT + 1] = x.code;
}

// What one filling comes to. A wrong instant reports no signal.
fn found(r: Reaction) -> Findings
    requires { Writable r }
    ensures { result ≡ found_in (answer_afterwards (writtenFrom r)) }
{
    let k = r.completion;
    match k {
        Completion::Ended => alone(r.emitted, 0),
        Completion::Waiting => alone(r.emitted, 1),
        Completion::Leaving(n) => alone(r.emitted, n + 1),
        Completion::Wrong(_, _) => alone(0, records::WRONG),
    }
}

// The fillings of the unknown signals `free`, none of which e has; r is the reaction to e. Where it asked for none of them it is the
// reaction to every filling. Else the fillings are those without the lowest signal that it asked for, and those with it.
fn fill(
    sequence: &[u8],
    second: &SecondParts,
    origin: Start,
    e: u32,
    free: u32,
    read_back: u32,
    r: Reaction,
) -> Findings
    requires stands { Stands second.now sequence.now origin read_back }
    requires disjoint { Disjoint e free }
    requires reacted_without_litres { ReactedWithoutLitres second.now sequence.now origin e read_back r }
    ensures { OfEach second.now sequence.now (λ p. result ≡ findings (answers_at origin p read_back) e free) }
{
    let asked = signals::common(r.asked, free);
    if signals::is_empty(asked) {
        return found(r);
    }
    let x = signals::lowest(asked);
    let others = signals::without(free, x);
    let with = signals::with(e, x);
    let q = program::react_without_litres(sequence, origin, with, read_back, second);
    let without = fill(sequence, second, origin, e, others, read_back, r);
    both(
        without,
        fill(sequence, second, origin, with, others, read_back, q),
    )
}

// The findings of all fillings together.
fn gather(
    sequence: &[u8],
    second: &SecondParts,
    origin: Start,
    input: u32,
    unknown: u32,
    read_back: u32,
) -> Findings
    requires { Stands second.now sequence.now origin read_back }
    ensures { OfEach second.now sequence.now
        (λ p. result ≡ findings (answers_at origin p read_back) input unknown) }
{
    let known = signals::difference(input, unknown);
    let r = program::react_without_litres(sequence, origin, known, read_back, second);
    fill(sequence, second, origin, known, unknown, read_back, r)
}

// The preview from an origin, if no more than six inputs are unknown.
fn show(
    sequence: &[u8],
    second: &SecondParts,
    origin: Start,
    input: u32,
    unknown: u32,
    read_back: u32,
    buffer: &mut [u8],
) -> Result<(), Refusal>
    requires { Stands second.now sequence.now origin read_back × (length buffer.old ≡ preview_length) }
    ensures { OfEach second.now sequence.now
        (λ p. previewed (call_number result) buffer.new ≡ shown_by (answers_at origin p read_back) input unknown buffer.old) }
{
    if limits::MAX_UNKNOWN < signals::size(unknown) {
        return Err(Refusal::Unknown);
    }
    write(
        buffer,
        gather(sequence, second, origin, input, unknown, read_back),
    );
    Ok(())
}

// The preview of a machine: the buffer is written, if the call is not turned down.
pub fn preview(
    sequence: &[u8],
    state: &[u8],
    input: u32,
    unknown: u32,
    read_back: u32,
    buffer: &mut [u8],
) -> Result<(), Refusal>
    ensures { previewed (call_number result) buffer.new
        ≡ preview_of sequence.now state.now input unknown read_back buffer.old }
{
    if buffer.len() != PREVIEW_LENGTH {
        return Err(Refusal::Length);
    }
    let mut second: SecondParts = [0; limits::MAX_BYTES];
    let mut notes: Notes = [0; notes::LENGTH];
    let start = instants::begin(sequence, state, read_back, &mut second, &mut notes)?;
    show(sequence, &second, start, input, unknown, read_back, buffer)
}
