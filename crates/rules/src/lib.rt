// The rules of commands with parts (01, 'One reaction'; 02, item 1), a function for each: what a command makes of the reactions of
// its part or of its two parts. The rules of a signal are in `declarations`.
#![tactic(auto)]

ghost use Rattle.std.specs.Prelude.{◌≡◌, ℕ, ◌<◌, false};
ghost use Rattle.spec_base.specs.Limits.{signal_count};
ghost use Rattle.spec_base.specs.Sets.{only};
ghost use Rattle.labels.specs.Labels.{label_set};
ghost use Rattle.spec_language.specs.Statement.{Statement};
ghost use Rattle.theory_language.specs.Traced.{loop_traced, present_traced, try_traced, suspend_traced, held_traced, stopped_traced, seq_traced, par_traced};
ghost use Rattle.reaction.specs.Reactions.{reaction_of, FromOne, FromTwo};
ghost use Rattle.spec_language.specs.Reaction.{if_waiting};
ghost use Rattle.reaction.specs.Completions.{code_of, is_ended};
ghost use Rattle.theory_language.specs.Traced as Traces;

use labels::Labels;
use limits::kinds;
use reaction::{Completion, Reaction};

// loop p at the offset `place`
pub fn in_loop(place: u16, p: Reaction) -> Reaction
    ensures { (u : Statement) → FromOne (loop_traced place u) p result }
{
    if reaction::is_ended(p.completion) {
        reaction::failing(
            kinds::INSTANTANEOUS,
            place,
            reaction::over_one(p.reactions),
            p.asked,
        )
    } else {
        reaction::around(p, 0)
    }
}

// present s, the branch that was taken having reacted as p; it asks for s
pub fn in_present(s: u8, p: Reaction) -> Reaction
    ensures { s < signal_count → FromOne (present_traced s) p result }
{
    reaction::around(p, signals::single(s))
}

// try p
pub fn in_try(p: Reaction) -> Reaction
    ensures { FromOne try_traced p result }
{
    Reaction {
        completion: reaction::caught(p.completion),
        reactions: reaction::over_one(p.reactions),
        ..p
    }
}

// A fresh suspend reacts as its part.
pub fn in_suspend(p: Reaction) -> Reaction
    ensures { (s : ℕ) → FromOne (suspend_traced s) p result }
{
    reaction::around(p, 0)
}

// A suspend that goes on, its signal being absent; it asked for that signal, whose set is `absent`. The set and not the signal is
// what a traversal keeps while the part resumes, so it is the argument here.
pub fn in_held(absent: u32, p: Reaction) -> Reaction
    ensures { (s : ℕ) → absent ≡ only s → FromOne (held_traced s) p result }
{
    reaction::around(p, absent)
}

// A suspend that its signal s stops: nothing inside reacts, and the active labels inside are kept.
pub fn stopped(s: u8, labels: Labels) -> Reaction
    ensures { s < signal_count → (u : Statement) → result ≡ reaction_of (stopped_traced s (label_set labels) u) }
{
    reaction::waiting(labels, signals::single(s))
}

// Labels are kept only with code 1.
fn if_waiting(k: Completion, labels: Labels) -> Labels
    ensures { label_set result ≡ if_waiting (code_of k) (label_set labels) }
{
    if matches!(k, Completion::Waiting) {
        labels
    } else {
        labels::empty()
    }
}

// p; q
pub fn in_sequence(p: Reaction, q: Reaction) -> Reaction
    ensures { (u : Statement) → FromTwo (seq_traced u) p q result }
{
    if reaction::is_ended(p.completion) {
        Reaction {
            emitted: signals::union(p.emitted, q.emitted),
            reactions: reaction::over_two(p.reactions, q.reactions),
            asked: signals::union(p.asked, q.asked),
            ..q
        }
    } else {
        in_first(p)
    }
}

// p; q where p has not ended: q does not react
pub fn in_first(p: Reaction) -> Reaction
    ensures { (u : Statement) (v : Traces.Traced) → is_ended p.completion ≡ false
        → FromOne (λ (t : Traces.Traced). seq_traced u t v) p result }
{
    reaction::around(p, 0)
}

// p in parallel with q
pub fn in_parallel(p: Reaction, q: Reaction) -> Reaction
    ensures { FromTwo par_traced p q result }
{
    let code = reaction::greater_of(p.completion, q.completion);
    Reaction {
        emitted: signals::union(p.emitted, q.emitted),
        labels: if_waiting(code, labels::union(p.labels, q.labels)),
        completion: code,
        reactions: reaction::over_two(p.reactions, q.reactions),
        asked: signals::union(p.asked, q.asked),
    }
}
