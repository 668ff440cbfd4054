// The kinds of error of an instant (01, 'One reaction').
// Numbers: public functions take any byte as a kind, and an enum would ask more of their callers.
// A loop whose body ended.
pub const INSTANTANEOUS: u8 = 1;

// Not reactive.
pub const NOT_REACTIVE: u8 = 2;

// Not strongly deterministic.
pub const NOT_DETERMINISTIC: u8 = 3;
