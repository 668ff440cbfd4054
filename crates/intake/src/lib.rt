// What hosts in C call: the check, the ceiling (02, item 6), the tick, the calls on a box of bays (02, items 8 to 12), loops
// written out (02, item 13), and the replay of a recording (02, item 14). Each is one line.
#![tactic(auto)]

ghost use Rattle.std.specs.Prelude.{◌≡◌, [], ◌∷◌};
ghost use Rattle.spec_sequence.specs.Check.{checked, check_of};
ghost use Rattle.spec_sequence.specs.Ceilings.{ceiling_of};
ghost use Rattle.spec_tick.specs.Demands.{TickMeets};
ghost use Rattle.spec_replay.specs.Replay.{replayed, replay_of};
ghost use Rattle.spec_bay.specs.Called.{called};
ghost use Rattle.spec_bay.specs.Stretch.{terms};
ghost use Rattle.spec_box.specs.Box.{admit, release, tick, save, restore, forget, service, panel, preview, ledger, new_year, call_of};
ghost use Rattle.spec_unroll.specs.Call.{unrolling, unroll_of};

use limits::rows::call_number;

// The check of a sequence with a read-back set: 0, or the number of the row that turns it down.
#[unsafe(no_mangle)]
pub extern "C" fn intake_check(sequence: &[u8], read_back: u32) -> u8
    ensures { result ≡ check_of sequence.now read_back }
{
    call_number(checks::verdict(sequence, read_back))
}

// The ceiling on the reactions of an instant: 0 for a sequence that the check turns down.
#[unsafe(no_mangle)]
pub extern "C" fn intake_ceiling(sequence: &[u8], read_back: u32) -> u32
    ensures { result ≡ ceiling_of read_back (checked sequence.now read_back) }
{
    ceilings::ceiling(sequence, read_back)
}

// The tick: 0 after an instant, whose records are written, or the number of the row that turns the call down.
#[unsafe(no_mangle)]
pub extern "C" fn intake_tick(
    sequence: &[u8],
    state: &mut [u8],
    input: u32,
    read_back: u32,
    answer: &mut [u8],
) -> u8
    ensures { TickMeets result state.new answer.new
        sequence.now state.old input read_back answer.old }
{
    call_number(instants::tick(sequence, state, input, read_back, answer))
}

// A recording checked against a sequence (02, item 14): 0 and a place, 0 if the recording is accepted and else that of the first record
// that differs, counted from 1; or the number of the row that turns it down, and place 0.
#[unsafe(no_mangle)]
pub extern "C" fn intake_replay(
    sequence: &[u8],
    read_back: u32,
    recording: &[u8],
    place: &mut usize,
) -> u8
    ensures { replayed result place.new ≡ replay_of sequence.now read_back recording.now }
{
    let outcome = replay_call::replay(sequence, read_back, recording);
    *place = outcome.unwrap_or(0);
    call_number(outcome)
}

// A bay is admitted, fresh: 0, or the number that turns the call down.
#[unsafe(no_mangle)]
pub extern "C" fn intake_box_admit(
    memory: &mut [u8],
    bay: u32,
    sequence: &[u8],
    read_back: u32,
    service_only: u32,
) -> u8
    ensures { called result memory.new []
        ≡ call_of memory.old bay (admit (terms sequence.now read_back service_only)) }
{
    call_number(boxes::admit(memory, bay, sequence, read_back, service_only))
}

// A bay is taken out.
#[unsafe(no_mangle)]
pub extern "C" fn intake_box_release(memory: &mut [u8], bay: u32) -> u8
    ensures { called result memory.new [] ≡ call_of memory.old bay release }
{
    call_number(boxes::release(memory, bay))
}

// The tick of a bay: an instant leaves its record in `trace` (02, item 10).
#[unsafe(no_mangle)]
pub extern "C" fn intake_box_tick(
    memory: &mut [u8],
    bay: u32,
    input: u32,
    answer: &mut [u8],
    trace: &mut [u8],
) -> u8
    ensures { called result memory.new (answer.new ∷ trace.new ∷ [])
        ≡ call_of memory.old bay (tick input answer.old trace.old) }
{
    call_number(boxes::tick(memory, bay, input, answer, trace))
}

// The labels of a waiting bay are saved under a name (02, item 9).
#[unsafe(no_mangle)]
pub extern "C" fn intake_box_save(memory: &mut [u8], bay: u32, name: u32) -> u8
    ensures { called result memory.new [] ≡ call_of memory.old bay (save name) }
{
    call_number(boxes::save(memory, bay, name))
}

// A bay comes back to what was saved under a name.
#[unsafe(no_mangle)]
pub extern "C" fn intake_box_restore(memory: &mut [u8], bay: u32, name: u32) -> u8
    ensures { called result memory.new [] ≡ call_of memory.old bay (restore name) }
{
    call_number(boxes::restore(memory, bay, name))
}

// A saved name is given up.
#[unsafe(no_mangle)]
pub extern "C" fn intake_box_forget(memory: &mut [u8], bay: u32, name: u32) -> u8
    ensures { called result memory.new [] ≡ call_of memory.old bay (forget name) }
{
    call_number(boxes::forget(memory, bay, name))
}

// The record `trace` whole, for service (02, item 10).
#[unsafe(no_mangle)]
pub extern "C" fn intake_box_service(memory: &[u8], bay: u32, trace: &[u8], view: &mut [u8]) -> u8
    ensures { called result memory.now (view.new ∷ [])
        ≡ call_of memory.now bay (service trace.now view.old) }
{
    call_number(boxes::service(memory, bay, trace, view))
}

// What a panel shows of the record `trace`: without service-only signals.
#[unsafe(no_mangle)]
pub extern "C" fn intake_box_panel(memory: &[u8], bay: u32, trace: &[u8], view: &mut [u8]) -> u8
    ensures { called result memory.now (view.new ∷ [])
        ≡ call_of memory.now bay (panel trace.now view.old) }
{
    call_number(boxes::panel(memory, bay, trace, view))
}

// What the next instant of a bay comes to while some inputs are of unknown status.
#[unsafe(no_mangle)]
pub extern "C" fn intake_box_preview(
    memory: &[u8],
    bay: u32,
    input: u32,
    unknown: u32,
    buffer: &mut [u8],
) -> u8
    ensures { called result memory.now (buffer.new ∷ [])
        ≡ call_of memory.now bay (preview input unknown buffer.old) }
{
    call_number(boxes::preview(memory, bay, input, unknown, buffer))
}

// The 32 totals of a bay number's ledger, then the ledger's total (02, item 12).
#[unsafe(no_mangle)]
pub extern "C" fn intake_box_ledger(memory: &[u8], bay: u32, totals: &mut [u8]) -> u8
    ensures { called result memory.now (totals.new ∷ [])
        ≡ call_of memory.now bay (ledger totals.old) }
{
    call_number(boxes::read_ledger(memory, bay, totals))
}

// The new year of a bay number: its totals are 0.
#[unsafe(no_mangle)]
pub extern "C" fn intake_box_new_year(memory: &mut [u8], bay: u32) -> u8
    ensures { called result memory.new [] ≡ call_of memory.old bay new_year }
{
    call_number(boxes::new_year(memory, bay))
}

// The sequence with its loops written out: 0 and its length, or the number of the row that turns the call down and 0.
#[unsafe(no_mangle)]
pub extern "C" fn intake_unroll(
    sequence: &[u8],
    read_back: u32,
    res: &mut [u8],
    result_length: &mut usize,
) -> u8
    ensures { unrolling result result_length.new res.new
        ≡ unroll_of sequence.now read_back res.old }
{
    let outcome = unroll_call::unroll(sequence, read_back, res);
    *result_length = outcome.unwrap_or(0);
    call_number(outcome)
}
