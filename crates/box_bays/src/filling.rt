// A bay filled and taken out (02, item 8), on its slot.
ghost use Rattle.std.specs.Prelude.{◌≡◌, ◌≤◌, [], length};
ghost use Rattle.spec_base.specs.Limits.{max_bytes};
ghost use Rattle.spec_bay.specs.Called.{called};
ghost use Rattle.spec_bay.specs.Stretch.{stretch_length, vacated, terms, filled};
ghost use Rattle.spec_bay.specs.BayCalls.{bay_release_of};

use crate::fields::{BAY_LENGTH, CEILING_AT, LENGTH_BYTES, READ_BACK_AT, SEQUENCE_AT, SERVICE_AT};
use limits::{REACTIONS_BYTES, SIGNAL_BYTES};

// Clears all that does not outlive a release.
fn vacate(stretch: &mut [u8])
    requires { length stretch.old ≡ stretch_length }
    ensures { stretch.new ≡ vacated stretch.old }
{
    numbers::put_le(stretch, 0, BAY_LENGTH, 0);
}

pub fn release(stretch: &mut [u8])
    requires { length stretch.old ≡ stretch_length }
    ensures { called 0 stretch.new [] ≡ bay_release_of stretch.old }
{
    vacate(stretch);
}

// Fills the slot of a bay: a fresh machine of this sequence, no positions, number 0.
pub fn fill(stretch: &mut [u8], sequence: &[u8], read_back: u32, service_only: u32, ceiling: u32)
    requires { (length stretch.old ≡ stretch_length) × (length sequence.now ≤ max_bytes) }
    ensures { stretch.new
        ≡ filled (terms sequence.now read_back service_only) ceiling stretch.old }
{
    vacate(stretch);
    numbers::put_le(stretch, 0, LENGTH_BYTES, sequence.len() as u64);
    numbers::copying::put_bytes(stretch, SEQUENCE_AT, sequence);
    numbers::put_le(stretch, READ_BACK_AT, SIGNAL_BYTES, read_back as u64);
    numbers::put_le(stretch, CEILING_AT, REACTIONS_BYTES, ceiling as u64);
    numbers::put_le(stretch, SERVICE_AT, SIGNAL_BYTES, service_only as u64);
}
