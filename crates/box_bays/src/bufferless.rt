// Release, save, restore and forget on the slot of a filled bay: the four calls that are lent no other buffer, by a value that names one.
// With a closure for each call the way to the slot and the search for a name (`naming::named`) would be written out once for each.
ghost use Rattle.std.specs.Prelude.{◌≡◌, [], length};
ghost use Rattle.spec_bay.specs.Called.{called};
ghost use Rattle.spec_bay.specs.Stretch.{stretch_length};
ghost use Rattle.box_bays.specs.Moves.{bay_moved_of};
ghost use Rattle.limits.specs.Rows.{call_number};

use crate::naming::Naming;
use limits::rows::Refusal;

#[derive(Clone, Copy, Debug, PartialEq, Eq)]
pub enum Moving {
    Release,
    Named(Naming, u32),
}

pub fn moved(stretch: &mut [u8], call: Moving) -> Result<(), Refusal>
    requires { length stretch.old ≡ stretch_length }
    ensures { called (call_number result) stretch.new [] ≡ bay_moved_of call stretch.old }
{
    match call {
        Moving::Release => {
            crate::filling::release(stretch);
            Ok(())
        }
        Moving::Named(naming, name) => crate::naming::named(stretch, naming, name),
    }
}
