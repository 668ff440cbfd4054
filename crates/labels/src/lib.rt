// A set of labels 0 to 127 as two words of 64 bits, which other crates see by `from_words`, `low_word` and `high_word` alone. Every
// function takes any index; one outside the width is no member.
#![tactic(auto)]

ghost use Rattle.std.specs.Prelude.{◌≡◌, true, ◌↔◌, ◌/◌, ◌%◌, ◌^◌, eqb};
ghost use Rattle.spec_base.specs.Limits.{word_labels, label_count};
ghost use Rattle.spec_base.specs.Sets.{member, none, join, remove, Subset, Disjoint, below, from};
ghost use Rattle.spec_base.specs.Widths.{only_below, Lowest, two_words};
ghost use Rattle.labels.specs.Labels.{label_set};

use limits::{LABELS, WORD_LABELS};

// The labels below 64, and the others.
#[derive(Clone, Copy, Debug, PartialEq, Eq)]
pub struct Labels {
    low: u64,
    high: u64,
}

pub fn empty() -> Labels
    ensures { label_set result ≡ none }
{
    Labels { low: 0, high: 0 }
}

pub fn single(i: u8) -> Labels
    ensures { label_set result ≡ only_below label_count i }
{
    if i < WORD_LABELS {
        return Labels {
            low: 1u64 << i,
            high: 0,
        };
    }
    if i < LABELS {
        Labels {
            low: 0,
            high: 1u64 << (i - WORD_LABELS),
        }
    } else {
        empty()
    }
}

pub fn member(s: Labels, i: u8) -> bool
    ensures { result ≡ member i (label_set s) }
{
    if i < WORD_LABELS {
        return (s.low >> i) % 2 == 1;
    }
    i < LABELS && (s.high >> (i - WORD_LABELS)) % 2 == 1
}

pub fn union(s: Labels, t: Labels) -> Labels
    ensures { label_set result ≡ join (label_set s) (label_set t) }
{
    Labels {
        low: s.low | t.low,
        high: s.high | t.high,
    }
}

pub fn without(s: Labels, i: u8) -> Labels
    ensures { label_set result ≡ remove i (label_set s) }
{
    let t = single(i);
    Labels {
        low: s.low & !t.low,
        high: s.high & !t.high,
    }
}

pub fn is_empty(s: Labels) -> bool
    ensures { result ≡ eqb (label_set s) none }
{
    s.low == 0 && s.high == 0
}

pub fn subset(s: Labels, t: Labels) -> bool
    ensures { (result ≡ true) ↔ Subset (label_set s) (label_set t) }
{
    s.low & t.low == s.low && s.high & t.high == s.high
}

pub fn disjoint(s: Labels, t: Labels) -> bool
    ensures { (result ≡ true) ↔ Disjoint (label_set s) (label_set t) }
{
    s.low & t.low == 0 && s.high & t.high == 0
}

// The lowest member; of the empty set, the width.
pub fn lowest(s: Labels) -> u8
    ensures { Lowest label_count (label_set s) result }
{
    if s.low == 0 {
        WORD_LABELS + u64::trailing_zeros(s.high) as u8
    } else {
        u64::trailing_zeros(s.low) as u8
    }
}

// The members below k.
pub fn below(s: Labels, k: u16) -> Labels
    ensures { label_set result ≡ below k (label_set s) }
{
    if k < WORD_LABELS as u16 {
        return Labels {
            low: s.low & ((1u64 << k) - 1),
            high: 0,
        };
    }
    if k < LABELS as u16 {
        Labels {
            low: s.low,
            high: s.high & ((1u64 << (k - WORD_LABELS as u16)) - 1),
        }
    } else {
        s
    }
}

// The members from k on.
pub fn from(s: Labels, k: u16) -> Labels
    ensures { label_set result ≡ from k (label_set s) }
{
    let t = below(s, k);
    Labels {
        low: s.low ^ t.low,
        high: s.high ^ t.high,
    }
}

// The set whose member i is bit i of `low`, or bit i - 64 of `high`.
pub fn from_words(low: u64, high: u64) -> Labels
    ensures { label_set result ≡ two_words word_labels low high }
{
    Labels { low, high }
}

pub fn low_word(s: Labels) -> u64
    ensures { result ≡ label_set s % 2 ^ word_labels }
{
    s.low
}

pub fn high_word(s: Labels) -> u64
    ensures { result ≡ label_set s / 2 ^ word_labels }
{
    s.high
}
