// Row 11 of 01: whether a label set is valid for a sequence. Its active pauses are a set of ranks, and only parts with two of them
// or more are visited.
#![tactic(auto)]

ghost use Rattle.std.specs.Prelude.{◌-◌, ◌≤◌, length};
ghost use Rattle.labels.specs.Labels.{label_set};
ghost use Rattle.layout.specs.Layout.{rest, Ready, Pair};
ghost use Rattle.validity.specs.Compatibility.{TellsCompatible, TellsCompatibleTwo};
ghost use Rattle.validity.specs.Activity.{Ranked, Masked, Judges};
ghost use Rattle.layout.specs.Known.{Sound};

use commands::Shape;
use labels::Labels;
use layout::SecondParts;
use notes::Notes;

// Whether the active pauses are pairwise compatible. The statement at the front of s stands at the offset `at`.
#[cycle(compatible_compatible_part_compatible_parts)]
fn compatible(s: &[u8], at: usize, depth: u8, second: &SecondParts, active: Labels) -> bool
    requires { Ready second.now depth at s.now }
    ensures { TellsCompatible second.now depth at s.now (label_set active) result }
{
    if labels::is_empty(labels::without(active, labels::lowest(active))) {
        return true;
    }
    let command = s[0];
    match commands::shape_of(command) {
        Shape::Leaf(_) => true,
        Shape::One(w) => compatible_part(s, w, at + w, depth - 1, second, active),
        Shape::Two(w) => {
            let parallel = command == limits::PARALLEL;
            compatible_parts(&s[0..], at, w, parallel, depth, second, active)
        }
    }
}

// The same of the part from s[n] on, which stands at the offset `at`.
#[cycle(compatible_compatible_part_compatible_parts)]
fn compatible_part(
    s: &[u8],
    n: usize,
    at: usize,
    depth: u8,
    second: &SecondParts,
    active: Labels,
) -> bool
    requires n_in_bounds { n ≤ length s.now }
    requires ready { Ready second.now depth at (rest n s.now) }
    ensures { TellsCompatible second.now depth at (rest n s.now) (label_set active) result }
{
    compatible(&s[n..], at, depth, second, active)
}

// The same of the two parts of the command of w bytes at the front of s, which stands at the offset `at`.
#[cycle(compatible_compatible_part_compatible_parts)]
fn compatible_parts(
    s: &[u8],
    at: usize,
    w: usize,
    parallel: bool,
    depth: u8,
    second: &SecondParts,
    active: Labels,
) -> bool
    requires { Pair second.now (depth - 1) at w s.now }
    ensures { TellsCompatibleTwo second.now (depth - 1) at w s.now parallel (label_set active) result }
{
    let m = second[at] as usize;
    let pauses = second[m - 1];
    let n = m - at;
    let p = labels::below(active, pauses);
    let q = labels::from(active, pauses);
    if labels::is_empty(p) {
        return compatible_part(s, n, m, depth - 1, second, q);
    }
    if labels::is_empty(q) {
        return compatible_part(s, w, at + w, depth - 1, second, p);
    }
    parallel
        && compatible_part(s, w, at + w, depth - 1, second, p)
        && compatible_part(s, n, m, depth - 1, second, q)
}

// The ranks of the pauses with these labels.
pub fn ranks(labels: Labels, notes: &Notes) -> Labels
    requires { Ranked notes.now (label_set labels) }
    ensures { Masked notes.now (label_set labels) (label_set result) }
{
    let mut mask = labels::empty();
    let mut left = labels;
    while !labels::is_empty(left) {
        let l = labels::lowest(left);
        let rank = notes::rank(notes, l) as u8;
        mask = labels::union(mask, labels::single(rank));
        left = labels::without(left, l);
    }
    mask
}

// The ranks of the pauses of a label set that is valid for the statement that was read.
pub fn valid_ranks(s: &[u8], second: &SecondParts, notes: &Notes, labels: Labels) -> Option<Labels>
    requires { Sound second.now notes.now s.now }
    ensures { Judges second.now notes.now s.now (label_set labels) result }
{
    if labels::is_empty(labels) {
        return None;
    }
    if !labels::subset(labels, notes::pauses(notes)) {
        return None;
    }
    let active = ranks(labels, notes);
    if compatible(&s[0..], 0, limits::MAX_DEPTH, second, active) {
        Some(active)
    } else {
        None
    }
}
