// The reader (01, 'Commands', rows 3 to 6; 02, row 18): one traversal of the bytes, which turns a sequence down or fills the table
// of second parts and the notes.
#![tactic(auto)]

pub mod leaves;
pub mod reader;
pub mod steps;
