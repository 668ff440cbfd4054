// Row 10 of 01: whether pauses or setpauses that lead to two exclusive pauses could be active together, by one traversal, which
// fills two matrices of labels.
#![tactic(auto)]

pub mod clash;
pub mod exclusion;
pub mod matrix;
mod survey;
pub mod triggers;
