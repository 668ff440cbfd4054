// The positions of a bay (02, item 9), on its slot.
ghost use Rattle.std.specs.Prelude.{◌≡◌, ℕ, [], length};
ghost use Rattle.box_positions.specs.Places.{place_of, labels_found, place_in, Places};
ghost use Rattle.limits.specs.Rows.{call_number};
ghost use Rattle.spec_bay.specs.Called.{called};
ghost use Rattle.spec_bay.specs.Stretch.{stretch_length, positions_in};
ghost use Rattle.spec_bay.specs.BayCalls.{bay_save_of, restored};
ghost use Rattle.box_bays.specs.Names.{bay_named_of};

use crate::fields::{BAY_LENGTH, COUNT_AT, POSITIONS_AT, STATE_AT};
use limits::rows::Refusal;

// The three calls with a name.
#[derive(Clone, Copy, Debug, PartialEq, Eq)]
pub enum Naming {
    Save,
    Restore,
    Forget,
}

// The labels of a waiting machine, saved under a name.
fn save(stretch: &mut [u8], known: Option<usize>, name: u32) -> Result<(), Refusal>
    requires { (length stretch.old ≡ stretch_length) × Places known (place_of name (positions_in stretch.old)) }
    ensures { called (call_number result) stretch.new [] ≡ bay_save_of stretch.old name }
{
    let held = crate::fields::state(stretch);
    if records::phase(held) != 1 {
        return Err(Refusal::Position);
    }
    let labels = records::labels(held);
    box_positions::save(&mut stretch[POSITIONS_AT..BAY_LENGTH], known, name, labels)
}

// The machine waits at the labels saved in an entry.
fn restore(stretch: &mut [u8], known: Option<usize>) -> Result<(), Refusal>
    requires { (length stretch.old ≡ stretch_length) × ((n : ℕ) × Places known n) }
    ensures { called (call_number result) stretch.new []
        ≡ restored stretch.old (labels_found (place_in known) (positions_in stretch.old)) }
{
    let i = known.ok_or(Refusal::Position)?;
    let labels = box_positions::saved_labels(crate::fields::table(stretch), i);
    records::write_state(&mut stretch[STATE_AT..COUNT_AT], records::WAITING, labels);
    Ok(())
}

// Saves, brings back or forgets by a name. A value tells the calls apart, so that the name is looked up in one place: with a search for
// each call the compiler writes the search out four times, 1,400 bytes of code more (docs/decisions/box.md).
pub fn named(stretch: &mut [u8], call: Naming, name: u32) -> Result<(), Refusal>
    requires { length stretch.old ≡ stretch_length }
    ensures { called (call_number result) stretch.new [] ≡ bay_named_of call name stretch.old }
{
    let known = box_positions::place_of(crate::fields::table(stretch), name);
    match call {
        Naming::Save => save(stretch, known, name),
        Naming::Restore => restore(stretch, known),
        Naming::Forget => box_positions::forget(&mut stretch[POSITIONS_AT..BAY_LENGTH], known),
    }
}
