// Commands without parts where a statement reacts: the value of an emission from its bytes (02, item 12), and the reaction of each.
#![tactic(auto)]

ghost use Rattle.std.specs.Prelude.{◌≡◌, ℕ, ◌<◌, get_or, List};
ghost use Rattle.spec_base.specs.Limits.{signal_count};
ghost use Rattle.spec_base.specs.Sets.{none};
ghost use Rattle.spec_base.specs.Widths.{only_below};
ghost use Rattle.spec_language.specs.Statement.{nothing};
ghost use Rattle.spec_language.specs.Reaction.{ended, gives};
ghost use Rattle.spec_language.specs.Litres.{brought};
ghost use Rattle.reaction.specs.Reactions.{alone, AccumulatesAt, Realizes};
ghost use Rattle.react_leaves.specs.Emissions.{Emission, Whole, value_in, meant};
ghost use Rattle.react_leaves.specs.Started.{Started, Leaf};

use reaction::{Deliveries, Reaction};

// What an emission carries: 02 nothing, 0C litres.
// An enum of its own and no Option, since 01 names this form (02, item 12).
#[derive(Clone, Copy, Debug, PartialEq)]
pub enum Value {
    Pure,
    Litres(f32),
}

// The value of the emission at the front of s.
fn carried(s: &[u8]) -> Value
    requires { Emission s.now }
    ensures { (result ≡ value_in s.now) × Whole result }
{
    if s[0] == limits::DELIVER {
        Value::Litres(f32::from_bits(litres::bits(s, 2)))
    } else {
        Value::Pure
    }
}

// What the emission at the front of s, whose signal is x, delivers is added to the litres of its farm.
fn deliver(s: &[u8], litres: &mut Deliveries, x: u8)
    requires emission { Emission s.now }
    requires x_lt_signal_count { x < signal_count }
    ensures { (f : ℕ) (o : ℕ) → AccumulatesAt f litres.old litres.new
        (alone (gives o ended none nothing) none (brought f x (meant (value_in s.now)))) }
{
    if let Value::Litres(more) = carried(s) {
        reaction::add(litres, x, more as u32);
    }
}

// An emission reacts, and what it delivers is added.
fn emitting(s: &[u8], litres: &mut Deliveries) -> Reaction
    requires { Emission s.now }
    ensures { (f : ℕ) → Realizes f litres.old litres.new result
        (alone (gives (only_below signal_count (get_or s.now 1 0)) ended none nothing) none
        (brought f (get_or s.now 1 0) (meant (value_in s.now)))) }
{
    let x = s[1];
    deliver(s, litres, x);
    reaction::ending(signals::single(x))
}

// The reaction of the command at the front of s, which has no parts.
pub fn alone(s: &[u8], litres: &mut Deliveries) -> Reaction
    requires { Leaf s.now }
    ensures { (t : List ℕ) (d a e : ℕ) → Started t d a s.now e litres.old litres.new result }
{
    match s[0] {
        limits::NOTHING => reaction::nothing(),
        limits::PAUSE => reaction::pausing(s[1]),
        limits::EMIT => emitting(s, litres),
        limits::EXIT => reaction::leaving(s[1]),
        limits::SETPAUSE => reaction::pausing(s[1]),
        _ => emitting(s, litres),
    }
}
