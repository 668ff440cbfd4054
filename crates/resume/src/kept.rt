// The labels of the active pauses inside a statement, by their ranks: what a stopped suspend keeps (02, item 1). Only parts
// with an active pause are entered.
ghost use Rattle.std.specs.Prelude.{◌-◌, ◌≤◌, length};
ghost use Rattle.spec_base.specs.Limits.{label_count};
ghost use Rattle.spec_base.specs.Widths.{only_below};
ghost use Rattle.labels.specs.Labels.{label_set};
ghost use Rattle.layout.specs.Layout.{rest, Ready, Pair};
ghost use Rattle.resume.specs.Labelled.{Joined, Labelled, Found, FoundTwo};

use commands::Shape;
use labels::Labels;
use layout::SecondParts;

// A pause with label l is active.
fn add(l: u8, found: &mut Labels)
    ensures { Joined (only_below label_count l) found.old found.new }
{
    *found = labels::union(*found, labels::single(l));
}

// Joined the labels of the statement at the front of s, which stands at the offset `at`. The mask is passed in registers, and the
// result is kept in one place.
#[cycle(inside_part_parts)]
fn inside(s: &[u8], at: usize, depth: u8, active: Labels, second: &SecondParts, found: &mut Labels)
    requires { Ready second.now depth at s.now }
    ensures { Found second.now depth at s.now (label_set active) found.old found.new }
{
    if labels::is_empty(active) {
        return;
    }
    let command = s[0];
    match commands::shape_of(command) {
        Shape::Leaf(_) => {
            if command == limits::PAUSE {
                add(s[1], found);
            }
        }
        Shape::One(w) => part(s, w, at + w, depth - 1, active, second, found),
        Shape::Two(w) => parts(s, at, w, depth, active, second, found),
    }
}

// The same of the part from s[n] on, which stands at the offset `at`.
#[cycle(inside_part_parts)]
fn part(
    s: &[u8],
    n: usize,
    at: usize,
    depth: u8,
    active: Labels,
    second: &SecondParts,
    found: &mut Labels,
)
    requires n_in_bounds { n ≤ length s.now }
    requires ready { Ready second.now depth at (rest n s.now) }
    ensures { Found second.now depth at (rest n s.now) (label_set active) found.old found.new }
{
    inside(&s[n..], at, depth, active, second, found);
}

// The same of the two parts of the command of w bytes at the front of s, which stands at the offset `at`.
#[cycle(inside_part_parts)]
fn parts(
    s: &[u8],
    at: usize,
    w: usize,
    depth: u8,
    active: Labels,
    second: &SecondParts,
    found: &mut Labels,
)
    requires { Pair second.now (depth - 1) at w s.now }
    ensures { FoundTwo second.now (depth - 1) at w s.now (label_set active) found.old found.new }
{
    let m = second[at] as usize;
    let pauses = second[m - 1];
    let n = m - at;
    let first = labels::below(active, pauses);
    let others = labels::from(active, pauses);
    if labels::is_empty(first) {
        part(s, n, m, depth - 1, others, second, found);
        return;
    }
    part(s, w, at + w, depth - 1, first, second, found);
    if labels::is_empty(others) {
        return;
    }
    part(s, n, m, depth - 1, others, second, found);
}

// The labels of the part from s[n] on, which stands at the offset `at`.
pub fn of_part(
    s: &[u8],
    n: usize,
    at: usize,
    depth: u8,
    active: Labels,
    second: &SecondParts,
) -> Labels
    requires n_in_bounds { n ≤ length s.now }
    requires ready { Ready second.now depth at (rest n s.now) }
    ensures { Labelled second.now depth at (rest n s.now) (label_set active) result }
{
    let mut found = labels::empty();
    part(s, n, at, depth, active, second, &mut found);
    found
}
