// A bay admitted (02, items 6 and 8), on its slot.
ghost use Rattle.std.specs.Prelude.{◌≡◌, ◌^◌, ◌≤◌, [], length};
ghost use Rattle.spec_bay.specs.Called.{called};
ghost use Rattle.spec_bay.specs.Stretch.{stretch_length, terms};
ghost use Rattle.spec_bay.specs.BayCalls.{bay_admit_of};
ghost use Rattle.limits.specs.Rows.{call_number};

use limits::rows::Refusal;

// Admits a sequence to the bay. `present` is what the bays present have of the shared ceiling.
pub fn admit(
    stretch: &mut [u8],
    present: u64,
    sequence: &[u8],
    read_back: u32,
    service_only: u32,
) -> Result<(), Refusal>
    requires { (length stretch.old ≡ stretch_length) × (present ≤ 2 ^ 40) }
    ensures { called (call_number result) stretch.new []
        ≡ bay_admit_of present stretch.old (terms sequence.now read_back service_only) }
{
    let ceiling = ceilings::planned(sequence, read_back)?;
    if limits::SHARED_CEILING < present + ceiling as u64 {
        return Err(Refusal::Ceiling);
    }
    crate::filling::fill(stretch, sequence, read_back, service_only, ceiling);
    Ok(())
}
