// The calls of one bay on its slot, the bytes that a box has for it (02, items 8 to 12): admission and release, the tick with
// ledger and record, positions, what service and panel see, preview, ledger and new year.
#![tactic(auto)]

pub mod admission;
pub mod bufferless;
pub mod fields;
pub mod filling;
pub mod naming;

ghost use Rattle.spec_base.specs.Limits.{farm_count};
ghost use Rattle.std.specs.Prelude.{◌≡◌, [], ◌∷◌, length, replicate, get_or};
ghost use Rattle.spec_tick.specs.AnswerRecord.{answer_length};
ghost use Rattle.spec_tick.specs.Record.{recordLength};
ghost use Rattle.instants.specs.Written.{Writable, writtenFrom};
ghost use Rattle.instants.specs.Replies.{Replies};
ghost use Rattle.spec_bay.specs.Ledgers.{NoneOutside};
ghost use Rattle.instants.specs.Delivering.{Delivers};
ghost use Rattle.spec_bay.specs.Called.{called};
ghost use Rattle.spec_bay.specs.Stretch.{stretch_length, sequence_in, read_back_in, state_in};
ghost use Rattle.spec_bay.specs.BayCalls.{bay_tick_of, bay_service_of, bay_panel_of, bay_preview_of, bay_ledger_of, bay_new_year_of};
ghost use Rattle.box_bays.specs.Layers.{state_kept, charged, bay_charged_of, recorded};
ghost use Rattle.limits.specs.Rows.{call_number};

use crate::fields::{BAY_LENGTH, COUNT_AT, STATE_AT, STRETCH_LENGTH};
use instants::Reply;
use limits::NUMBER_BYTES;
use limits::rows::Refusal;
use reaction::{Deliveries, Reaction};
use records::{ANSWER_LENGTH, PANEL_LENGTH, RECORD_LENGTH};

// What a tick on what the bay holds comes to before anything is written, with the litres of the farms that its sequence names.
fn reply_with(stretch: &[u8], input: u32, named: &mut u32, litres: &mut Deliveries) -> Reply
    requires { litres.old ≡ replicate farm_count 0 }
    ensures replies { Replies (sequence_in stretch.now) (state_in stretch.now) input (read_back_in stretch.now) result }
    ensures delivers { Delivers (sequence_in stretch.now) (state_in stretch.now) input
        (read_back_in stretch.now) named.new litres.new }
{
    instants::reply_to(
        crate::fields::sequence(stretch),
        crate::fields::state(stretch),
        input,
        crate::fields::read_back(stretch),
        named,
        litres,
    )
}

// Writes an instant and enters its litres, those of some farms; or is turned down and writes nothing.
fn settle(
    stretch: &mut [u8],
    answer: &mut [u8],
    reaction: Reaction,
    farms: u32,
    litres: &Deliveries,
) -> Result<(), Refusal>
    requires stretch_len { (length stretch.old ≡ stretch_length) × (length answer.old ≡ answer_length) × Writable reaction }
    requires none_outside { NoneOutside farms (λ f. get_or litres.now f 0) }
    ensures { called (call_number result) stretch.new (answer.new ∷ [])
        ≡ charged stretch.old (λ f. get_or litres.now f 0) answer.old
        (state_kept stretch.old (writtenFrom reaction)) }
{
    if box_ledgers::would_pass(crate::fields::ledger(stretch), litres, farms) {
        return Err(Refusal::Ledger);
    }
    instants::finish(&mut stretch[STATE_AT..COUNT_AT], answer, reaction);
    box_ledgers::add(&mut stretch[BAY_LENGTH..STRETCH_LENGTH], litres, farms);
    Ok(())
}

// The tick on what the bay holds with its litres, without its record.
fn step(stretch: &mut [u8], input: u32, answer: &mut [u8]) -> Result<(), Refusal>
    requires { length stretch.old ≡ stretch_length }
    ensures { called (call_number result) stretch.new (answer.new ∷ [])
        ≡ bay_charged_of stretch.old input answer.old }
{
    if answer.len() != ANSWER_LENGTH {
        return Err(Refusal::Length);
    }
    let mut named: u32 = 0;
    let mut litres: Deliveries = [0; limits::FARMS];
    let reaction = reply_with(stretch, input, &mut named, &mut litres)?;
    settle(stretch, answer, reaction, named, &litres)
}

// Counts an instant, and writes its record.
fn note(stretch: &mut [u8], input: u32, answer: &[u8], trace: &mut [u8])
    requires { (length stretch.old ≡ stretch_length) × (length answer.now ≡ answer_length) × (length trace.old ≡ recordLength) }
    ensures { called 0 stretch.new (answer.now ∷ trace.new ∷ [])
        ≡ recorded input trace.old (called 0 stretch.old (answer.now ∷ [])) }
{
    let number = records::following(crate::fields::count(stretch));
    records::write_record(trace, number, input, answer, crate::fields::state(stretch));
    numbers::put_le(stretch, COUNT_AT, NUMBER_BYTES, number as u64);
}

// The tick on what the bay holds: an instant leaves its record in `trace`.
pub fn tick(
    stretch: &mut [u8],
    input: u32,
    answer: &mut [u8],
    trace: &mut [u8],
) -> Result<(), Refusal>
    requires { length stretch.old ≡ stretch_length }
    ensures { called (call_number result) stretch.new (answer.new ∷ trace.new ∷ [])
        ≡ bay_tick_of stretch.old input answer.old trace.old }
{
    if trace.len() != RECORD_LENGTH {
        return Err(Refusal::Length);
    }
    step(stretch, input, answer)?;
    note(stretch, input, answer, trace);
    Ok(())
}

// A record whole, for service.
pub fn service(stretch: &[u8], trace: &[u8], view: &mut [u8]) -> Result<(), Refusal>
    ensures { called (call_number result) stretch.now (view.new ∷ [])
        ≡ bay_service_of stretch.now trace.now view.old }
{
    if trace.len() != RECORD_LENGTH || view.len() != RECORD_LENGTH {
        return Err(Refusal::Length);
    }
    records::write_service(view, trace);
    Ok(())
}

// What a panel shows of a record.
pub fn panel(stretch: &[u8], trace: &[u8], view: &mut [u8]) -> Result<(), Refusal>
    ensures { called (call_number result) stretch.now (view.new ∷ [])
        ≡ bay_panel_of stretch.now trace.now view.old }
{
    if trace.len() != RECORD_LENGTH || view.len() != PANEL_LENGTH {
        return Err(Refusal::Length);
    }
    records::write_panel(view, trace, crate::fields::service_only(stretch));
    Ok(())
}

// Shows what the next instant comes to while some inputs are of unknown status (02, item 11).
pub fn preview(stretch: &[u8], input: u32, unknown: u32, buffer: &mut [u8]) -> Result<(), Refusal>
    ensures { called (call_number result) stretch.now (buffer.new ∷ [])
        ≡ bay_preview_of stretch.now input unknown buffer.old }
{
    box_previews::preview(
        crate::fields::sequence(stretch),
        crate::fields::state(stretch),
        input,
        unknown,
        crate::fields::read_back(stretch),
        buffer,
    )
}

// The 32 totals of the bay number's ledger and the ledger's total (02, item 12).
pub fn read_ledger(stretch: &[u8], totals: &mut [u8]) -> Result<(), Refusal>
    requires { length stretch.now ≡ stretch_length }
    ensures { called (call_number result) stretch.now (totals.new ∷ [])
        ≡ bay_ledger_of stretch.now totals.old }
{
    if totals.len() != box_ledgers::READING_LENGTH {
        return Err(Refusal::Length);
    }
    box_ledgers::read(crate::fields::ledger(stretch), totals);
    Ok(())
}

// The new year: every total of the bay number's ledger is 0.
pub fn new_year(stretch: &mut [u8])
    requires { length stretch.old ≡ stretch_length }
    ensures { called 0 stretch.new [] ≡ bay_new_year_of stretch.old }
{
    box_ledgers::clear(&mut stretch[BAY_LENGTH..STRETCH_LENGTH]);
}
