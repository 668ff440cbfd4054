// The call that checks a recording against a sequence (02, item 14): one check, then an instant and 37 compared bytes for each
// record. Nothing of the recording is believed but its inputs: the machine goes on from its own states, which need no row 11.
#![tactic(auto)]

ghost use Rattle.std.specs.Prelude.{◌≡◌};
ghost use Rattle.labels.specs.Labels.{label_set};
ghost use Rattle.instants.specs.Written.{Writable};
ghost use Rattle.spec_replay.specs.Replay.{same as Replay·same, place_of, replayed, replay_of};
ghost use Rattle.replay_call.specs.Comparing.{RankedAfter, StandsAfter, Compared};
ghost use Rattle.replay_call.specs.Following.{Stood, Follows};
ghost use Rattle.checks.specs.Verdict.{Passed};
ghost use Rattle.std.specs.Result.{result_unwrap_or};
ghost use Rattle.limits.specs.Rows.{call_number};

use instants::Standing;
use layout::SecondParts;
use limits::rows::Refusal;
use notes::Notes;
use program::Start;
use reaction::{Completion, Reaction};
use records::{ANSWER_LENGTH, RECORD_LENGTH, STATE_LENGTH};

// Whether the bytes are the same: one by one, since `==` of slices may ask C for memcmp, and the header promises memset alone.
fn same(a: &[u8], b: &[u8]) -> bool
    ensures { result ≡ Replay·same a.now b.now }
{
    a.len() == b.len() && a.iter().zip(b).all(|(x, y)| x == y)
}

// Where the machine stands after an instant.
fn after(r: Reaction, notes: &Notes) -> Standing
    requires { RankedAfter notes.now r.completion (label_set r.labels) }
    ensures { StandsAfter notes.now r.completion (label_set r.labels) result }
{
    match r.completion {
        Completion::Waiting => Ok(Start::Waiting(validity::ranks(r.labels, notes))),
        Completion::Ended | Completion::Leaving(_) | Completion::Wrong(_, _) => Err(Refusal::Over),
    }
}

// A record against the one that an instant leaves: where the machine then stands, or nothing if the record differs.
fn compare(notes: &Notes, number: u32, input: u32, trace: &[u8], r: Reaction) -> Option<Standing>
    requires { Writable r × RankedAfter notes.now r.completion (label_set r.labels) }
    ensures { Compared notes.now number input trace.now r result }
{
    let mut state = [0u8; STATE_LENGTH];
    let mut answer = [0u8; ANSWER_LENGTH];
    let mut made = [0u8; RECORD_LENGTH];
    instants::finish(&mut state, &mut answer, r);
    records::write_record(&mut made, number, input, &answer, &state);
    if same(trace, &made) {
        Some(after(r, notes))
    } else {
        None
    }
}

// The record of an instant on the input recorded, from where the machine stands; one that is over leaves none.
fn follow(
    sequence: &[u8],
    second: &SecondParts,
    notes: &Notes,
    read_back: u32,
    number: u32,
    trace: &[u8],
    standing: Standing,
) -> Option<Standing>
    requires { Stood sequence.now read_back second.now notes.now standing }
    ensures { Follows sequence.now read_back second.now notes.now
        number trace.now standing result }
{
    let input = records::input(trace);
    let r = program::react_without_litres(sequence, standing.ok()?, input, read_back, second);
    compare(notes, number, input, trace, r)
}

// The place of the first record that differs, or 0.
fn first_difference(
    sequence: &[u8],
    second: &SecondParts,
    notes: &Notes,
    read_back: u32,
    recording: &[u8],
) -> usize
    requires { Passed sequence.now read_back second.now notes.now }
    ensures { result ≡ place_of sequence.now read_back recording.now }
{
    let mut standing = Ok(Start::Fresh);
    let mut number: u32 = 1;
    for (i, trace) in recording.chunks_exact(RECORD_LENGTH).enumerate() {
        let next = follow(sequence, second, notes, read_back, number, trace, standing);
        let Some(there) = next else {
            return i + 1;
        };
        standing = there;
        number = records::following(number);
    }
    0
}

// The replay of a recording: the place of the first record that differs, 0 if it is accepted.
pub fn replay(sequence: &[u8], read_back: u32, recording: &[u8]) -> Result<usize, Refusal>
    ensures { replayed (call_number result) (result_unwrap_or result 0) ≡ replay_of sequence.now read_back recording.now }
{
    let mut second: SecondParts = [0; limits::MAX_BYTES];
    let mut notes: Notes = [0; notes::LENGTH];
    checks::check(sequence, read_back, &mut second, &mut notes)?;
    if recording.len() % RECORD_LENGTH != 0 {
        return Err(Refusal::Recording);
    }
    Ok(first_difference(sequence, &second, &notes, read_back, recording))
}
