// The rules of a signal (01, 'One reaction'; 02, items 4 to 6): which of the five cases fits the two runs of its body, and what the
// declaration makes of them, or of one run that stands for both.
#![tactic(auto)]

ghost use Rattle.std.specs.Prelude.{◌≡◌, ℕ};
ghost use Rattle.declarations.specs.Choices.{choice_of, case_in};
ghost use Rattle.spec_base.specs.Sets.{none, join, remove};
ghost use Rattle.labels.specs.Labels.{labels_with};
ghost use Rattle.reaction.specs.Completions.{greater_of};
ghost use Rattle.reaction.specs.Reactions.{FromOne, FromTwo};
ghost use Rattle.spec_language.specs.Statement.{Scope, local, reported};
ghost use Rattle.spec_language.specs.Reaction.{outside};
ghost use Rattle.theory_language.specs.Traced.{signal_once, signal_traced};
ghost use Rattle.spec_base.specs.Limits.{read_back_place};

use limits::kinds;
use reaction::Reaction;

// The five signal cases of 01.
#[derive(Clone, Copy, Debug, PartialEq, Eq)]
pub enum Choice {
    Both,
    Neither,
    OnlyMinus,
    OnlyPlus,
    Inherited,
}

// The first that fits the runs without the signal s and with it, inheritance before the other four (02, item 4).
fn choose(s: u8, minus: Reaction, plus: Reaction) -> Choice
    ensures { result ≡ choice_of (case_in s minus plus) }
{
    if reaction::is_wrong(minus.completion) || reaction::is_wrong(plus.completion) {
        return Choice::Inherited;
    }
    match (
        signals::member(minus.emitted, s),
        signals::member(plus.emitted, s),
    ) {
        (true, true) => Choice::Both,
        (true, false) => Choice::OnlyMinus,
        (false, true) => Choice::OnlyPlus,
        (false, false) => Choice::Neither,
    }
}

// The signals that a declaration asks for: those of both runs, without its own signal s.
fn asked(s: u8, minus: Reaction, plus: Reaction) -> u32
    ensures { result ≡ remove s (join minus.asked plus.asked) }
{
    signals::without(signals::union(minus.asked, plus.asked), s)
}

// A wrong run is inherited: of two, that without the signal. What it emitted is not kept.
fn inherited(minus: Reaction, plus: Reaction, reactions: u32, asked: u32) -> Reaction
    ensures { result ≡ record {
      emitted = none;
      labels = labels_with none;
      completion = greater_of minus.completion plus.completion;
      reactions = reactions;
      asked = asked;
    } }
{
    Reaction {
        emitted: 0,
        labels: labels::empty(),
        completion: reaction::greater_of(minus.completion, plus.completion),
        reactions,
        asked,
    }
}

// A declaration whose run p without the signal s did not ask for s: p stands for both runs, and counts twice. It emits the set
// `kept`.
fn declaring_once(kept: u32, p: Reaction) -> Reaction
    ensures { (f : ℕ) (sc : Scope) (a s : ℕ) → kept ≡ outside sc s p.emitted
        → FromOne (signal_once f sc a s) p result }
{
    let reactions = reaction::over_two(p.reactions, p.reactions);
    if reaction::is_wrong(p.completion) {
        reaction::made(0, labels::empty(), p.completion, reactions, p.asked)
    } else {
        reaction::made(kept, p.labels, p.completion, reactions, p.asked)
    }
}

// A declaration of s at the offset `place`, from the runs of its body without s and with it. Where both runs emit s, it emits
// the set `kept`. Both runs count and ask, whichever answers; what asks inside for s does not ask outside.
fn declaring(place: u16, s: u8, kept: u32, minus: Reaction, plus: Reaction) -> Reaction
    ensures { (f : ℕ) (sc : Scope) → kept ≡ outside sc s plus.emitted
        → FromTwo (signal_traced f sc place s) minus plus result }
{
    // both runs count
    let reactions = reaction::over_two(minus.reactions, plus.reactions);
    let asked = asked(s, minus, plus);
    match choose(s, minus, plus) {
        Choice::Both => reaction::made(kept, plus.labels, plus.completion, reactions, asked),
        Choice::Neither => reaction::made(
            minus.emitted,
            minus.labels,
            minus.completion,
            reactions,
            asked,
        ),
        Choice::OnlyMinus => reaction::failing(kinds::NOT_REACTIVE, place, reactions, asked),
        Choice::OnlyPlus => reaction::failing(kinds::NOT_DETERMINISTIC, place, reactions, asked),
        Choice::Inherited => inherited(minus, plus, reactions, asked),
    }
}

// signal s at the offset `place`: s stays inside
pub fn in_signal(place: u16, s: u8, minus: Reaction, plus: Reaction) -> Reaction
    ensures { (f : ℕ) → FromTwo (signal_traced f local place s) minus plus result }
{
    declaring(place, s, signals::without(plus.emitted, s), minus, plus)
}

// signal s at any place, from one run that stands for both
pub fn in_signal_once(s: u8, p: Reaction) -> Reaction
    ensures { (f a : ℕ) → FromOne (signal_once f local a s) p result }
{
    declaring_once(signals::without(p.emitted, s), p)
}

// The read-back declaration of s (02, items 5 and 12): s is reported all the same.
pub fn in_read_back(s: u8, minus: Reaction, plus: Reaction) -> Reaction
    ensures { (f : ℕ) → FromTwo (signal_traced f reported read_back_place s) minus plus result }
{
    declaring(limits::READ_BACK_PLACE, s, plus.emitted, minus, plus)
}

// The read-back declaration of any signal, from one run that stands for both.
pub fn in_read_back_once(p: Reaction) -> Reaction
    ensures { (f s : ℕ) → FromOne (signal_once f reported read_back_place s) p result }
{
    declaring_once(p.emitted, p)
}
