// What one reaction gives (01, 'One reaction'): its completion, the reactions of commands without parts, the number of reactions of
// a tree from those of its parts (02, item 6), the signals that it asks for, and the litres of each farm (02, item 12).
#![tactic(auto)]

ghost use Rattle.std.specs.Prelude.{◌≡◌, cond, ◌+◌, ◌<◌, get_or, set};
ghost use Rattle.spec_language.specs.Reaction.{is_wrong, ended, waiting, leaving, gives};
ghost use Rattle.reaction.specs.Completions.{code_of, greater_of, is_ended, caught};
ghost use Rattle.spec_base.specs.Limits.{signal_count, label_count};
ghost use Rattle.spec_base.specs.Sets.{member, none};
ghost use Rattle.spec_base.specs.Widths.{only_below};
ghost use Rattle.labels.specs.Labels.{label_set};
ghost use Rattle.spec_language.specs.Statement.{nothing};
ghost use Rattle.reaction.specs.Reactions.{kept_of, capped_of, alone, reaction_of, failed_with, counted_around, FromOne};

use labels::Labels;

// The code: ended, waiting, leaving n enclosing try blocks, or wrong with kind and place of the first error. An instant is
// wrong exactly if its tree of reactions has an error, so no error stands beside another code.
#[derive(Clone, Copy, Debug, PartialEq, Eq)]
pub enum Completion {
    Ended,
    Waiting,
    Leaving(u8),
    Wrong(u8, u16),
}

pub fn is_ended(k: Completion) -> bool
    ensures { result ≡ is_ended k }
{
    matches!(k, Completion::Ended)
}

pub fn is_wrong(k: Completion) -> bool
    ensures { result ≡ is_wrong (code_of k) }
{
    matches!(k, Completion::Wrong(..))
}

// The greater of two codes; of two that are wrong the first, whose error is the first.
pub fn greater_of(k: Completion, l: Completion) -> Completion
    ensures { result ≡ greater_of k l }
{
    match (k, l) {
        (Completion::Wrong(..), _) => k,
        (_, Completion::Wrong(..)) => l,
        (Completion::Leaving(m), Completion::Leaving(n)) => Completion::Leaving(m.max(n)),
        (Completion::Leaving(_), _) => k,
        (Completion::Waiting, Completion::Ended) => k,
        _ => l,
    }
}

// The completion of a try block from that of its body.
pub fn caught(k: Completion) -> Completion
    ensures { result ≡ caught k }
{
    match k {
        Completion::Leaving(1) => Completion::Ended,
        Completion::Leaving(n) => Completion::Leaving(n.saturating_sub(1)),
        _ => k,
    }
}

// The greatest field first, so that no space is lost between two. `asked` are the signals whose status its tree asked for: where
// a run of a signal's body did not ask for it, the other run is the same.
#[derive(Clone, Copy, Debug, PartialEq, Eq)]
pub struct Reaction {
    pub labels: Labels,
    pub emitted: u32,
    pub completion: Completion,
    pub reactions: u32,
    pub asked: u32,
}

// The litres of each farm so far in an instant, each up to one more than the limit, which stands for all above it.
pub type Deliveries = [u32; limits::FARMS];

// The reactions of a command over two parts. The sum is in range whatever they are, and keeps 32 bits, as the answer does; that
// no accepted program takes more is part of demand 2 (spec_tick, Shows.counted).
pub fn over_two(n: u32, m: u32) -> u32
    ensures { result ≡ kept_of (1 + n + m) }
{
    ((1 + n as u64 + m as u64) % limits::REACTIONS_COUNT) as u32
}

// The reactions of a command over one part.
pub fn over_one(n: u32) -> u32
    ensures { result ≡ kept_of (1 + n) }
{
    over_two(n, 0)
}

// The sum of two numbers of litres. It is in range whatever they are.
fn together(n: u32, m: u32) -> u32
    ensures { result ≡ capped_of (n + m) }
{
    (n as u64 + m as u64).min(limits::LITRES_OVER) as u32
}

// The farm x is delivered some litres more.
pub fn add(litres: &mut Deliveries, x: u8, more: u32)
    requires { x < signal_count }
    ensures { litres.new ≡ set litres.old x (capped_of (get_or litres.old x 0 + more)) }
{
    let n = x as usize;
    litres[n] = together(litres[n], more);
}

// The litres of the farm x are again what they were before.
pub fn restore(litres: &mut Deliveries, x: u8, before: u32)
    requires { x < signal_count }
    ensures { litres.new ≡ set litres.old x before }
{
    let n = x as usize;
    litres[n] = before;
}

// Of the litres of two runs those of the one that answers: the other's where it is chosen.
pub fn select(litres: &mut Deliveries, other: &Deliveries, chosen: bool)
    ensures { litres.new ≡ cond chosen other.now litres.old }
{
    if chosen {
        *litres = *other;
    }
}

// A reaction from its values. The completion comes in one register: stored in pieces, it could not be read back whole before they
// have all reached memory.
pub fn made(
    emitted: u32,
    labels: Labels,
    completion: Completion,
    reactions: u32,
    asked: u32,
) -> Reaction
    ensures { result ≡ record {
      emitted = emitted;
      labels = labels;
      completion = completion;
      reactions = reactions;
      asked = asked;
    } }
{
    Reaction {
        emitted,
        labels,
        completion,
        reactions,
        asked,
    }
}

// Whether the tree of p asked for the signal s: where a run without s did not, the run with it would be the same.
pub fn asks(p: Reaction, s: u8) -> bool
    ensures { result ≡ member s p.asked }
{
    signals::member(p.asked, s)
}

// A command that ends at once.
pub fn ending(emitted: u32) -> Reaction
    ensures { result ≡ reaction_of (alone (gives emitted ended none nothing) none 0) }
{
    made(emitted, labels::empty(), Completion::Ended, 1, 0)
}

// A nothing, and whatever has ended at once.
pub fn nothing() -> Reaction
    ensures { result ≡ reaction_of (alone (gives none ended none nothing) none 0) }
{
    ending(0)
}

// A command that waits: a pause with its label, a stopped suspend with the active labels inside it. A stopped suspend asked for
// its signal.
pub fn waiting(labels: Labels, asked: u32) -> Reaction
    ensures { result ≡ reaction_of (alone (gives none waiting (label_set labels) nothing) asked 0) }
{
    made(0, labels, Completion::Waiting, 1, asked)
}

pub fn pausing(l: u8) -> Reaction
    ensures { result ≡ reaction_of (alone (gives none waiting (only_below label_count l) nothing) none 0) }
{
    waiting(labels::single(l), 0)
}

pub fn leaving(n: u8) -> Reaction
    ensures { result ≡ reaction_of (alone (gives none (leaving n) none nothing) none 0) }
{
    made(0, labels::empty(), Completion::Leaving(n), 1, 0)
}

// Wrong, with nothing emitted.
pub fn failing(kind: u8, place: u16, reactions: u32, asked: u32) -> Reaction
    ensures { result ≡ failed_with (record { kind = kind; place = place }) reactions asked }
{
    made(
        0,
        labels::empty(),
        Completion::Wrong(kind, place),
        reactions,
        asked,
    )
}

// A command that only counts: a test, a suspend, a sequence whose first part has not ended, a loop whose body has not. A test and
// a held suspend ask for their signal, `asked`; the others for none.
pub fn around(p: Reaction, asked: u32) -> Reaction
    ensures { FromOne (counted_around asked) p result }
{
    made(
        p.emitted,
        p.labels,
        p.completion,
        over_one(p.reactions),
        signals::union(p.asked, asked),
    )
}
