// A waiting statement resumes by the ranks of its active pauses; no expansion is built. Only parts with an active pause are
// entered: the table of second parts says where one begins and how many pauses stand before it, which splits the ranks.
#![tactic(auto)]

pub mod kept;

ghost use Rattle.std.specs.Prelude.{◌≡◌, ◌≤◌, length, get_or};
ghost use Rattle.labels.specs.Labels.{label_set};
ghost use Rattle.layout.specs.Layout.{rest, Ready};
ghost use Rattle.resume.specs.Resumed.{Resumed, ResumedSide};

use labels::Labels;
use layout::SecondParts;
use reaction::{Deliveries, Reaction};

// The reaction of the statement at the front of s, which stands at the offset `at`, by the ranks of its active pauses. What it
// delivers is added to `litres`.
// The arguments stay apart: a struct of more than two words goes through memory at each level (docs/decisions/instant.md).
#[cycle(body_declaration_par_parts_part_present_parts_resume_seq_parts_side_signal_rule_suspend_part)]
pub fn resume(
    s: &[u8],
    at: usize,
    depth: u8,
    input: u32,
    litres: &mut Deliveries,
    active: Labels,
    second: &SecondParts,
) -> Reaction
    requires { Ready second.now depth at s.now }
    ensures { Resumed second.now depth at s.now (label_set active) input
        litres.old litres.new result }
{
    let command = s[0];
    match command {
        limits::SEQUENCE => seq_parts(s, at, depth, input, litres, active, second),
        limits::PARALLEL => par_parts(s, at, depth, input, litres, active, second),
        // the loop begins again where its body has ended
        limits::LOOP => {
            let p = part(s, 1, at + 1, depth - 1, input, litres, active, second);
            react::after(p, s, 0, at, depth, input, litres, second)
        }
        limits::PRESENT => present_parts(s, at, depth, input, litres, active, second),
        limits::SIGNAL => declaration(s, at, depth, input, litres, active, second),
        limits::TRY => rules::in_try(part(s, 1, at + 1, depth - 1, input, litres, active, second)),
        limits::SUSPEND => suspend_part(s, at, depth, input, litres, active, second),
        _ => reaction::nothing(),
    }
}

// The part that begins at index n of s, at the offset `at`. A pause, which has ended, is answered here, without a slice or a frame
// of its own.
#[cycle(body_declaration_par_parts_part_present_parts_resume_seq_parts_side_signal_rule_suspend_part)]
fn part(
    s: &[u8],
    n: usize,
    at: usize,
    depth: u8,
    input: u32,
    litres: &mut Deliveries,
    active: Labels,
    second: &SecondParts,
) -> Reaction
    requires n_in_bounds { n ≤ length s.now }
    requires ready { Ready second.now depth at (rest n s.now) }
    ensures { Resumed second.now depth at (rest n s.now) (label_set active) input
        litres.old litres.new result }
{
    if s[n] == limits::PAUSE {
        return reaction::nothing();
    }
    resume(&s[n..], at, depth, input, litres, active, second)
}

#[cycle(body_declaration_par_parts_part_present_parts_resume_seq_parts_side_signal_rule_suspend_part)]
fn seq_parts(
    s: &[u8],
    at: usize,
    depth: u8,
    input: u32,
    litres: &mut Deliveries,
    active: Labels,
    second: &SecondParts,
) -> Reaction
    requires { Ready second.now depth at s.now × (get_or s.now 0 0 ≡ 4) }
    ensures { Resumed second.now depth at s.now (label_set active) input
        litres.old litres.new result }
{
    let m = second[at] as usize;
    let pauses = second[m - 1];
    let first = labels::below(active, pauses);
    if labels::is_empty(first) {
        // the expansion is that of the second part
        let others = labels::from(active, pauses);
        return part(s, m - at, m, depth - 1, input, litres, others, second);
    }
    let p = part(s, 1, at + 1, depth - 1, input, litres, first, second);
    react::after(p, s, m - at, m, depth - 1, input, litres, second)
}

// A side of a parallel, which begins at index n of s: it has ended where none of its pauses is active.
#[cycle(body_declaration_par_parts_part_present_parts_resume_seq_parts_side_signal_rule_suspend_part)]
fn side(
    s: &[u8],
    n: usize,
    at: usize,
    depth: u8,
    input: u32,
    litres: &mut Deliveries,
    active: Labels,
    second: &SecondParts,
) -> Reaction
    requires n_in_bounds { n ≤ length s.now }
    requires ready { Ready second.now depth at (rest n s.now) }
    ensures { ResumedSide second.now depth at (rest n s.now) (label_set active) input
        litres.old litres.new result }
{
    if labels::is_empty(active) || s[n] == limits::PAUSE {
        return reaction::nothing();
    }
    resume(&s[n..], at, depth, input, litres, active, second)
}

#[cycle(body_declaration_par_parts_part_present_parts_resume_seq_parts_side_signal_rule_suspend_part)]
fn par_parts(
    s: &[u8],
    at: usize,
    depth: u8,
    input: u32,
    litres: &mut Deliveries,
    active: Labels,
    second: &SecondParts,
) -> Reaction
    requires { Ready second.now depth at s.now × (get_or s.now 0 0 ≡ 5) }
    ensures { Resumed second.now depth at s.now (label_set active) input
        litres.old litres.new result }
{
    let m = second[at] as usize;
    let pauses = second[m - 1];
    let first = labels::below(active, pauses);
    let p = side(s, 1, at + 1, depth - 1, input, litres, first, second);
    let others = labels::from(active, pauses);
    let q = side(s, m - at, m, depth - 1, input, litres, others, second);
    rules::in_parallel(p, q)
}

// Of a test the active branch goes on, whatever its signal is now.
#[cycle(body_declaration_par_parts_part_present_parts_resume_seq_parts_side_signal_rule_suspend_part)]
fn present_parts(
    s: &[u8],
    at: usize,
    depth: u8,
    input: u32,
    litres: &mut Deliveries,
    active: Labels,
    second: &SecondParts,
) -> Reaction
    requires { Ready second.now depth at s.now × (get_or s.now 0 0 ≡ 7) }
    ensures { Resumed second.now depth at s.now (label_set active) input
        litres.old litres.new result }
{
    let m = second[at] as usize;
    let pauses = second[m - 1];
    let first = labels::below(active, pauses);
    if labels::is_empty(first) {
        let others = labels::from(active, pauses);
        return part(s, m - at, m, depth - 1, input, litres, others, second);
    }
    part(s, 2, at + 2, depth - 1, input, litres, first, second)
}

// A declaration, as in `react`.
// Twins of `react` stay: a rule that both shared by a closure would not call itself, which is what keeps its frame apart
// (docs/decisions/instant.md).
#[cycle(body_declaration_par_parts_part_present_parts_resume_seq_parts_side_signal_rule_suspend_part)]
fn declaration(
    s: &[u8],
    at: usize,
    depth: u8,
    input: u32,
    litres: &mut Deliveries,
    active: Labels,
    second: &SecondParts,
) -> Reaction
    requires { Ready second.now depth at s.now × (get_or s.now 0 0 ≡ 8) }
    ensures { Resumed second.now depth at s.now (label_set active) input
        litres.old litres.new result }
{
    signal_rule(&s[0..], at, depth, input, litres, active, second)
}

// The signal rule: the body resumes without the signal, and with it where that run asked for the signal; else the second run would
// repeat the first. It has a frame of its own and treats the litres as in `react`.
#[cycle(body_declaration_par_parts_part_present_parts_resume_seq_parts_side_signal_rule_suspend_part)]
fn signal_rule(
    s: &[u8],
    at: usize,
    depth: u8,
    input: u32,
    litres: &mut Deliveries,
    active: Labels,
    second: &SecondParts,
) -> Reaction
    requires { Ready second.now depth at s.now × (get_or s.now 0 0 ≡ 8) }
    ensures { Resumed second.now depth at s.now (label_set active) input
        litres.old litres.new result }
{
    let x = s[1];
    let n = x as usize;
    let without = signals::without(input, x);
    let with = signals::with(input, x);
    let before = litres[n];
    let mut other: Deliveries = *litres;
    let p = body(s, 2, at + 2, depth - 1, without, litres, active, second);
    if reaction::asks(p, x) {
        let q = body(s, 2, at + 2, depth - 1, with, &mut other, active, second);
        reaction::select(litres, &other, signals::member(q.emitted, x));
        reaction::restore(litres, x, before);
        declarations::in_signal(at as u16, x, p, q)
    } else {
        reaction::restore(litres, x, before);
        declarations::in_signal_once(x, p)
    }
}

// The body of a declaration, which begins at index n of s: a declaration again, or any other part.
#[cycle(body_declaration_par_parts_part_present_parts_resume_seq_parts_side_signal_rule_suspend_part)]
fn body(
    s: &[u8],
    n: usize,
    at: usize,
    depth: u8,
    input: u32,
    litres: &mut Deliveries,
    active: Labels,
    second: &SecondParts,
) -> Reaction
    requires n_in_bounds { n ≤ length s.now }
    requires ready { Ready second.now depth at (rest n s.now) }
    ensures { Resumed second.now depth at (rest n s.now) (label_set active) input
        litres.old litres.new result }
{
    if s[n] == limits::SIGNAL {
        return signal_rule(&s[n..], at, depth, input, litres, active, second);
    }
    part(s, n, at, depth, input, litres, active, second)
}

// The signal is tested first. Where it is present nothing inside reacts, and the active labels inside are kept.
#[cycle(body_declaration_par_parts_part_present_parts_resume_seq_parts_side_signal_rule_suspend_part)]
fn suspend_part(
    s: &[u8],
    at: usize,
    depth: u8,
    input: u32,
    litres: &mut Deliveries,
    active: Labels,
    second: &SecondParts,
) -> Reaction
    requires { Ready second.now depth at s.now × (get_or s.now 0 0 ≡ 11) }
    ensures { Resumed second.now depth at s.now (label_set active) input
        litres.old litres.new result }
{
    let x = s[1];
    if signals::member(input, x) {
        let labels = crate::kept::of_part(s, 2, at + 2, depth - 1, active, second);
        rules::stopped(x, labels)
    } else {
        rules::in_held(
            signals::single(x),
            part(s, 2, at + 2, depth - 1, input, litres, active, second),
        )
    }
}
