// The calls on a box of eight bays (02, items 8 to 12): whether a call has a bay, by the numbers 13 and 1, and then the call on
// that bay's slot of the box.
#![tactic(auto)]

ghost use Rattle.spec_base.specs.Limits.{bay_count};
ghost use Rattle.std.specs.Prelude.{◌≡◌, [], ◌∷◌, ◌*◌, ◌^◌, ◌≤◌, length};
ghost use Rattle.boxes.specs.Entries.{fits, either, entry_of, Enters};
ghost use Rattle.limits.specs.Rows.{call_number};
ghost use Rattle.spec_bay.specs.Called.{called};
ghost use Rattle.spec_bay.specs.Stretch.{terms};
ghost use Rattle.spec_box.specs.Box.{box_length, present, call_of, release, tick, admit, save, restore, forget, service, panel, preview, ledger, new_year};
ghost use Rattle.boxes.specs.Moving.{call_by};

use box_bays::bufferless::Moving;
use box_bays::fields::STRETCH_LENGTH;
use box_bays::naming::Naming;
use limits::rows::Refusal;

pub const BOX_LENGTH: usize = limits::BAYS * STRETCH_LENGTH;

// Where the slot of a bay begins, whether it is filled or empty.
fn slot(memory: &[u8], bay: u32) -> Result<usize, Refusal>
    ensures { Enters result (entry_of memory.now bay either) memory.now bay }
{
    let at = bay as usize;
    if limits::BAYS <= at {
        return Err(Refusal::Bay);
    }
    if memory.len() != BOX_LENGTH {
        return Err(Refusal::Length);
    }
    Ok(at * STRETCH_LENGTH)
}

// Where the slot of a bay begins that is empty, if the call wants a vacant one, or else filled. The calls below cut the slot out.
// Tried: `on_slot(memory, bay, view, |slot, view| ..)`, 14 lines that save 3. With `view` captured, nothing says that a refusal keeps it.
fn entry(memory: &[u8], bay: u32, vacant: bool) -> Result<usize, Refusal>
    ensures { Enters result (entry_of memory.now bay (fits vacant)) memory.now bay }
{
    let from = slot(memory, bay)?;
    if box_bays::fields::is_empty(&memory[from..from + STRETCH_LENGTH]) != vacant {
        return Err(Refusal::Bay);
    }
    Ok(from)
}

pub fn tick(
    memory: &mut [u8],
    bay: u32,
    input: u32,
    answer: &mut [u8],
    trace: &mut [u8],
) -> Result<(), Refusal>
    ensures { called (call_number result) memory.new (answer.new ∷ trace.new ∷ [])
        ≡ call_of memory.old bay (tick input answer.old trace.old) }
{
    let from = entry(memory, bay, false)?;
    box_bays::tick(
        &mut memory[from..from + STRETCH_LENGTH],
        input,
        answer,
        trace,
    )
}

// A call that lends nothing but a bay, which is to be filled.
fn moved(memory: &mut [u8], bay: u32, call: Moving) -> Result<(), Refusal>
    ensures { called (call_number result) memory.new [] ≡ call_of memory.old bay (call_by call) }
{
    let from = entry(memory, bay, false)?;
    box_bays::bufferless::moved(&mut memory[from..from + STRETCH_LENGTH], call)
}

pub fn release(memory: &mut [u8], bay: u32) -> Result<(), Refusal>
    ensures { called (call_number result) memory.new [] ≡ call_of memory.old bay release }
{
    moved(memory, bay, Moving::Release)
}

// What the bays present have of the shared ceiling.
fn present_in(memory: &[u8]) -> u64
    requires { length memory.now ≡ box_length }
    ensures { (result ≡ present bay_count memory.now) × (result ≤ bay_count * 2 ^ 32) }
{
    let mut sum: u64 = 0;
    for bay in 0..limits::BAYS {
        let from = bay * STRETCH_LENGTH;
        sum += box_bays::fields::part(&memory[from..from + STRETCH_LENGTH]) as u64;
    }
    sum
}

pub fn admit(
    memory: &mut [u8],
    bay: u32,
    sequence: &[u8],
    read_back: u32,
    service_only: u32,
) -> Result<(), Refusal>
    ensures { called (call_number result) memory.new []
        ≡ call_of memory.old bay (admit (terms sequence.now read_back service_only)) }
{
    let from = entry(memory, bay, true)?;
    let present = present_in(memory);
    box_bays::admission::admit(
        &mut memory[from..from + STRETCH_LENGTH],
        present,
        sequence,
        read_back,
        service_only,
    )
}

pub fn save(memory: &mut [u8], bay: u32, name: u32) -> Result<(), Refusal>
    ensures { called (call_number result) memory.new [] ≡ call_of memory.old bay (save name) }
{
    moved(memory, bay, Moving::Named(Naming::Save, name))
}

pub fn restore(memory: &mut [u8], bay: u32, name: u32) -> Result<(), Refusal>
    ensures { called (call_number result) memory.new [] ≡ call_of memory.old bay (restore name) }
{
    moved(memory, bay, Moving::Named(Naming::Restore, name))
}

pub fn forget(memory: &mut [u8], bay: u32, name: u32) -> Result<(), Refusal>
    ensures { called (call_number result) memory.new [] ≡ call_of memory.old bay (forget name) }
{
    moved(memory, bay, Moving::Named(Naming::Forget, name))
}

pub fn service(memory: &[u8], bay: u32, trace: &[u8], view: &mut [u8]) -> Result<(), Refusal>
    ensures { called (call_number result) memory.now (view.new ∷ [])
        ≡ call_of memory.now bay (service trace.now view.old) }
{
    let from = entry(memory, bay, false)?;
    box_bays::service(&memory[from..from + STRETCH_LENGTH], trace, view)
}

pub fn panel(memory: &[u8], bay: u32, trace: &[u8], view: &mut [u8]) -> Result<(), Refusal>
    ensures { called (call_number result) memory.now (view.new ∷ [])
        ≡ call_of memory.now bay (panel trace.now view.old) }
{
    let from = entry(memory, bay, false)?;
    box_bays::panel(&memory[from..from + STRETCH_LENGTH], trace, view)
}

pub fn preview(
    memory: &[u8],
    bay: u32,
    input: u32,
    unknown: u32,
    buffer: &mut [u8],
) -> Result<(), Refusal>
    ensures { called (call_number result) memory.now (buffer.new ∷ [])
        ≡ call_of memory.now bay (preview input unknown buffer.old) }
{
    let from = entry(memory, bay, false)?;
    box_bays::preview(&memory[from..from + STRETCH_LENGTH], input, unknown, buffer)
}

// The ledger of a bay number, whether its bay is filled or empty (02, item 12).
pub fn read_ledger(memory: &[u8], bay: u32, totals: &mut [u8]) -> Result<(), Refusal>
    ensures { called (call_number result) memory.now (totals.new ∷ [])
        ≡ call_of memory.now bay (ledger totals.old) }
{
    let from = slot(memory, bay)?;
    box_bays::read_ledger(&memory[from..from + STRETCH_LENGTH], totals)
}

pub fn new_year(memory: &mut [u8], bay: u32) -> Result<(), Refusal>
    ensures { called (call_number result) memory.new [] ≡ call_of memory.old bay new_year }
{
    let from = slot(memory, bay)?;
    box_bays::new_year(&mut memory[from..from + STRETCH_LENGTH]);
    Ok(())
}
