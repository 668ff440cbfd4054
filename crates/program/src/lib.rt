// An instant of a program (02, item 5): the read-back declarations outside, the lowest outermost, and the sequence, which reacts or
// resumes, inside.
#![tactic(auto)]

ghost use Rattle.std.specs.Prelude.{◌≡◌, replicate};
ghost use Rattle.spec_base.specs.Limits.{max_depth, farm_count};
ghost use Rattle.layout.specs.Layout.{Ready};
ghost use Rattle.program.specs.Program.{Inside, Reacted, ReactedWithoutLitres};
ghost use Rattle.program.specs.Deliveries.{Instant};

use labels::Labels;
use layout::SecondParts;
use reaction::{Deliveries, Reaction};

// Where a sequence stands: at its beginning, or at its active pauses, by their ranks.
// An enum of its own and no Option: `None` would not say that the sequence begins.
#[derive(Clone, Copy, Debug, PartialEq, Eq)]
pub enum Start {
    Fresh,
    Waiting(Labels),
}

// The sequence itself, with no declaration left around it.
fn inside(
    s: &[u8],
    origin: Start,
    input: u32,
    litres: &mut Deliveries,
    second: &SecondParts,
) -> Reaction
    requires { Ready second.now max_depth 0 s.now }
    ensures { Inside second.now s.now origin input litres.old litres.new result }
{
    match origin {
        Start::Fresh => react::react(s, 0, limits::MAX_DEPTH, input, litres, second),
        Start::Waiting(active) => resume::resume(
            s,
            0,
            limits::MAX_DEPTH,
            input,
            litres,
            active,
            second,
        ),
    }
}

// The sequence under a declaration of each read-back signal, which is a signal's: it reacts with the signal where the run without it
// asked. The litres are those of the run that answers, the signal's own too (02, item 12).
fn react(
    s: &[u8],
    origin: Start,
    input: u32,
    read_back: u32,
    litres: &mut Deliveries,
    second: &SecondParts,
) -> Reaction
    requires { Ready second.now max_depth 0 s.now }
    ensures { Reacted second.now s.now origin input read_back litres.old litres.new result }
{
    if signals::is_empty(read_back) {
        return inside(s, origin, input, litres, second);
    }
    let x = signals::lowest(read_back);
    let others = signals::without(read_back, x);
    let without = signals::without(input, x);
    let with = signals::with(input, x);
    let mut other: Deliveries = *litres;
    let p = react(s, origin, without, others, litres, second);
    if signals::member(p.asked, x) {
        let q = react(s, origin, with, others, &mut other, second);
        reaction::select(litres, &other, signals::member(q.emitted, x));
        declarations::in_read_back(x, p, q)
    } else {
        declarations::in_read_back_once(p)
    }
}

// An instant with the litres of each farm (02, item 12); a wrong one delivers nothing.
pub fn instant(
    s: &[u8],
    origin: Start,
    input: u32,
    read_back: u32,
    litres: &mut Deliveries,
    second: &SecondParts,
) -> Reaction
    requires ready { Ready second.now max_depth 0 s.now }
    requires litres_value { litres.old ≡ replicate farm_count 0 }
    ensures { Instant second.now s.now origin input read_back result litres.new }
{
    let r = react(s, origin, input, read_back, litres, second);
    if reaction::is_wrong(r.completion) {
        *litres = [0; limits::FARMS];
    }
    r
}

// The reaction alone, for a caller that keeps no ledger.
pub fn react_without_litres(
    s: &[u8],
    origin: Start,
    input: u32,
    read_back: u32,
    second: &SecondParts,
) -> Reaction
    requires { Ready second.now max_depth 0 s.now }
    ensures { ReactedWithoutLitres second.now s.now origin input read_back result }
{
    let mut litres: Deliveries = [0; limits::FARMS];
    react(s, origin, input, read_back, &mut litres, second)
}
