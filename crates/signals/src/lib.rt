// A set of signals 0 to 31 as a number: bit i says whether signal i is a member. Every function takes any index; one outside the
// width is no member.
#![tactic(auto)]

ghost use Rattle.std.specs.Prelude.{◌≡◌, length};
ghost use Rattle.spec_base.specs.Limits.{signal_count};
ghost use Rattle.spec_base.specs.Sets.{member, empty, join, common, difference, remove, members_from};
ghost use Rattle.spec_base.specs.Widths.{only_below, insert_below, complement, Lowest};

pub fn member(s: u32, i: u8) -> bool
    ensures { result ≡ member i s }
{
    i < limits::SIGNALS && (s >> i) % 2 == 1
}

pub fn single(i: u8) -> u32
    ensures { result ≡ only_below signal_count i }
{
    if i < limits::SIGNALS { 1u32 << i } else { 0 }
}

pub fn union(s: u32, t: u32) -> u32
    ensures { result ≡ join s t }
{
    s | t
}

pub fn with(s: u32, i: u8) -> u32
    ensures { result ≡ insert_below signal_count i s }
{
    s | single(i)
}

pub fn without(s: u32, i: u8) -> u32
    ensures { result ≡ remove i s }
{
    s & !single(i)
}

pub fn is_empty(s: u32) -> bool
    ensures { result ≡ empty s }
{
    s == 0
}

// The lowest member; of the empty set, the width.
pub fn lowest(s: u32) -> u8
    ensures { Lowest signal_count s result }
{
    u32::trailing_zeros(s) as u8
}

// The number of members.
pub fn size(s: u32) -> u8
    ensures { result ≡ length (members_from signal_count 0 s) }
{
    u32::count_ones(s) as u8
}

// What both sets have.
pub fn common(s: u32, t: u32) -> u32
    ensures { result ≡ common s t }
{
    s & t
}

// What s has and t has not.
pub fn difference(s: u32, t: u32) -> u32
    ensures { result ≡ difference s t }
{
    s & !t
}

// The signals that s has not.
pub fn complement(s: u32) -> u32
    ensures { result ≡ complement signal_count s }
{
    !s
}
