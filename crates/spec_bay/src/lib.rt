// One bay (02, items 8 to 12): its positions, its ledger, its previews, its slot of a box as bytes, and the calls on it.
// Definitions and worked examples; the code has one type, the findings of a preview.
#![tactic(auto)]

// The findings of a preview (02, item 11): the signals emitted for every filling and for some, whether some filling is wrong, and the
// code that they share.
#[derive(Clone, Copy)]
pub struct Findings {
    pub every: u32,
    pub some: u32,
    pub wrong: bool,
    pub code: u8,
}
