// How a statement is encoded in bytes, and the two arrays that reading fills for the traversals after it: the table of second parts
// and the notes, an index of labels. Definitions for contracts, laws, and the table's type.
#![tactic(auto)]

use limits::rows::Refusal;

// The unit of the reader's answer: so many for a row; below it, an offset.
pub const ROW_UNIT: usize = 1048576;

// That answer for the rows of reading (01, rows 3 to 6; 02, item 12).
pub const COMMAND_ROW: usize = Refusal::Command as usize * ROW_UNIT;

pub const MISSING_ROW: usize = Refusal::Missing as usize * ROW_UNIT;

pub const OPERAND_ROW: usize = Refusal::Operand as usize * ROW_UNIT;

pub const DEPTH_ROW: usize = Refusal::Depth as usize * ROW_UNIT;

pub const LITRES_ROW: usize = Refusal::Litres as usize * ROW_UNIT;

// The table of second parts: at the offset of a command of two parts, where its second part begins; at the byte before that, which is
// the last one of a command without parts, how many pauses stand before it.
pub type SecondParts = [u16; limits::MAX_BYTES];
