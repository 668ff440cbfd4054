// The slot of a bay (02, items 8 to 12): where its fields begin, and what they hold.
ghost use Rattle.std.specs.Prelude.{◌≡◌};
ghost use Rattle.spec_bay.specs.Stretch.{is_empty, sequence_in, read_back_in, service_only_in, state_in, last_number_in, positions_in, ledger_in, part_of};

use box_positions::TABLE_LENGTH;
use limits::{MAX_BYTES, NUMBER_BYTES, REACTIONS_BYTES, SIGNAL_BYTES};
use records::STATE_LENGTH;

// Where the fields begin: bytes at fixed places and no struct, since a box is bytes that C lends, laid out
// as docs/FORMAT.md has it. Fixed by the admission:
pub const LENGTH_BYTES: usize = 2;

pub const SEQUENCE_AT: usize = LENGTH_BYTES;

pub const READ_BACK_AT: usize = SEQUENCE_AT + MAX_BYTES;

pub const CEILING_AT: usize = READ_BACK_AT + SIGNAL_BYTES;

pub const SERVICE_AT: usize = CEILING_AT + REACTIONS_BYTES;

// Moved by calls:
pub const STATE_AT: usize = SERVICE_AT + SIGNAL_BYTES;

pub const COUNT_AT: usize = STATE_AT + STATE_LENGTH;

pub const POSITIONS_AT: usize = COUNT_AT + NUMBER_BYTES;

// What a release clears ends here, and the ledger of the bay number begins.
pub const BAY_LENGTH: usize = POSITIONS_AT + TABLE_LENGTH;

pub const STRETCH_LENGTH: usize = BAY_LENGTH + box_ledgers::LENGTH;

pub fn is_empty(stretch: &[u8]) -> bool
    ensures { result ≡ is_empty stretch.now }
{
    numbers::get_le(stretch, 0, LENGTH_BYTES) == 0
}

pub fn sequence(stretch: &[u8]) -> &[u8]
    ensures { result.now ≡ sequence_in stretch.now }
{
    let length = numbers::get_le(stretch, 0, LENGTH_BYTES) as usize;
    numbers::part(stretch, SEQUENCE_AT, length)
}

pub fn read_back(stretch: &[u8]) -> u32
    ensures { result ≡ read_back_in stretch.now }
{
    numbers::get_le(stretch, READ_BACK_AT, SIGNAL_BYTES) as u32
}

pub fn service_only(stretch: &[u8]) -> u32
    ensures { result ≡ service_only_in stretch.now }
{
    numbers::get_le(stretch, SERVICE_AT, SIGNAL_BYTES) as u32
}

pub fn state(stretch: &[u8]) -> &[u8]
    ensures { result.now ≡ state_in stretch.now }
{
    numbers::part(stretch, STATE_AT, STATE_LENGTH)
}

pub fn count(stretch: &[u8]) -> u32
    ensures { result ≡ last_number_in stretch.now }
{
    numbers::get_le(stretch, COUNT_AT, NUMBER_BYTES) as u32
}

pub fn table(stretch: &[u8]) -> &[u8]
    ensures { result.now ≡ positions_in stretch.now }
{
    numbers::part(stretch, POSITIONS_AT, TABLE_LENGTH)
}

pub fn ledger(stretch: &[u8]) -> &[u8]
    ensures { result.now ≡ ledger_in stretch.now }
{
    numbers::part(stretch, BAY_LENGTH, box_ledgers::LENGTH)
}

// The part of the shared ceiling that the bay has.
pub fn part(stretch: &[u8]) -> u32
    ensures { result ≡ part_of stretch.now }
{
    if is_empty(stretch) {
        return 0;
    }
    numbers::get_le(stretch, CEILING_AT, REACTIONS_BYTES) as u32
}
