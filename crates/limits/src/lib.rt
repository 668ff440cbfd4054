// The widths and limits of 01 and 02, each named once for the code; spec_base/specs/Limits names them for the definitions. Labels
// are 0 to 127 (02, item 7), signals 0 to 31, exits 1 to 15.
#![tactic(auto)]

pub mod kinds;
pub mod rows;

pub const LABELS: u8 = 128;

pub const LABEL_COUNT: usize = 128;

// A label set is held in two words of so many bits.
pub const WORD_LABELS: u8 = 64;

pub const SIGNALS: u8 = 32;

pub const MAX_EXIT: u8 = 15;

// The command bytes (01, 'Commands'; 0B by 02, item 1, 0C by item 12): bytes of the format, and no enum, since a `match` on the byte has the
// same arms and needs none for a byte without a command.
pub const NOTHING: u8 = 0;

pub const PAUSE: u8 = 1;

pub const EMIT: u8 = 2;

pub const EXIT: u8 = 3;

pub const SEQUENCE: u8 = 4;

pub const PARALLEL: u8 = 5;

pub const LOOP: u8 = 6;

pub const PRESENT: u8 = 7;

pub const SIGNAL: u8 = 8;

pub const TRY: u8 = 9;

pub const SETPAUSE: u8 = 10;

pub const SUSPEND: u8 = 11;

pub const DELIVER: u8 = 12;

// The greatest command byte: row 3 begins above it.
pub const LAST_COMMAND: u8 = DELIVER;

// The outermost command has depth 1; at most so many signal commands stand around a command.
pub const MAX_DEPTH: u8 = 64;

pub const MAX_SIGNALS: u8 = 6;

pub const MAX_BYTES: usize = 1024;

// The place of an error of a read-back declaration (02, item 5).
pub const READ_BACK_PLACE: u16 = 65535;

// The greatest number of litres that an emission carries or a farm's total holds (02, item 12); one more stands for all above it.
pub const LITRES_LIMIT: u32 = 16777216;

pub const LITRES_OVER: u64 = 16777217;

// A signal's number is its farm's (02, item 12).
pub const FARMS: usize = 32;

// The bytes of a word of labels, of a label set, of a place, of a signal set and of a number of reactions, and how many numbers
// the last can hold.
pub const WORD_BYTES: usize = 8;

pub const LABEL_BYTES: usize = 16;

pub const PLACE_BYTES: usize = 2;

pub const SIGNAL_BYTES: usize = 4;

pub const REACTIONS_BYTES: usize = 4;

pub const REACTIONS_COUNT: u64 = 4294967296;

// A bay keeps so many positions; the bytes of a position's name (02, item 9).
pub const MAX_POSITIONS: usize = 16;

pub const NAME_BYTES: usize = 4;

// The bytes of the number of an instant (02, item 10).
pub const NUMBER_BYTES: usize = 4;

// A box has so many bays, and they share a ceiling (02, item 8); a preview takes at most so many unknown inputs (02, item 11).
pub const BAYS: usize = 8;

pub const SHARED_CEILING: u64 = 65536;

pub const MAX_UNKNOWN: u8 = 6;
