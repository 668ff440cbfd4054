// How long and how deep a statement is with its loops written out (02, item 13). Each number stays at one more than its limit.
ghost use Rattle.std.specs.Prelude.{◌≡◌, ◌+◌, ◌-◌, ◌≤◌, max, length};
ghost use Rattle.layout.specs.Layout.{rest, Ready, Pair};
ghost use Rattle.unroll_call.specs.Measured.{SizesOf, Measured, MeasuredTwo, Few};

use commands::Shape;
use layout::SecondParts;

// Of a statement: the bytes of its copy, and the bytes and the depth of it worked through. One of the three is wider, so that the
// compiler adds them one by one: vector operations would bring read-only operands.
#[derive(Clone, Copy, Debug, PartialEq, Eq)]
pub struct Sizes {
    pub copy: u32,
    pub whole: u64,
    pub depth: u32,
}

const MOST_COPIED: u32 = limits::MAX_BYTES as u32 + 1;

const MOST_BYTES: u64 = limits::MAX_BYTES as u64 + 1;

const MOST_DEPTH: u32 = limits::MAX_DEPTH as u32 + 1;

// These numbers, capped.
fn capped(copy: u32, whole: u64, depth: u32) -> Sizes
    ensures { SizesOf copy whole depth result }
{
    Sizes {
        copy: copy.min(MOST_COPIED),
        whole: whole.min(MOST_BYTES),
        depth: depth.min(MOST_DEPTH),
    }
}

// Those of a command of w bytes around a part with the numbers n.
fn around(n: Sizes, w: u32) -> Sizes
    requires { Few n × (w ≤ 2) }
    ensures { SizesOf (w + n.copy) (w + n.whole) (1 + n.depth) result }
{
    capped(w + n.copy, w as u64 + n.whole, 1 + n.depth)
}

// Those of a loop around a part with the numbers n: written out, a loop and a sequence stand around the copy and the part.
fn around_loop(n: Sizes) -> Sizes
    requires { Few n }
    ensures { SizesOf n.copy (2 + n.copy + n.whole) (2 + n.depth) result }
{
    capped(n.copy, 2 + n.copy as u64 + n.whole, 2 + n.depth)
}

// Those of a command of w bytes around two parts.
fn around_two(p: Sizes, q: Sizes, w: u32) -> Sizes
    requires { Few p × Few q × (w ≤ 2) }
    ensures { SizesOf (w + p.copy + q.copy) (w + p.whole + q.whole) (1 + max p.depth q.depth) result }
{
    capped(
        w + p.copy + q.copy,
        w as u64 + p.whole + q.whole,
        1 + p.depth.max(q.depth),
    )
}

// The numbers of the statement at the front of s, which stands at the offset `at`.
#[cycle(of_part_of_parts_of_statement)]
pub fn of_statement(s: &[u8], at: usize, depth: u8, second: &SecondParts) -> Sizes
    requires { Ready second.now depth at s.now }
    ensures { Measured second.now depth at s.now result }
{
    let command = s[0];
    match commands::shape_of(command) {
        Shape::Leaf(w) => capped(w as u32, w as u64, 1),
        Shape::One(w) => {
            let n = of_part(s, w, at + w, depth - 1, second);
            if command == limits::LOOP {
                around_loop(n)
            } else {
                around(n, w as u32)
            }
        }
        Shape::Two(w) => of_parts(s, at, w, depth, second),
    }
}

// The same of the part from s[n] on, which stands at the offset `at`.
#[cycle(of_part_of_parts_of_statement)]
fn of_part(s: &[u8], n: usize, at: usize, depth: u8, second: &SecondParts) -> Sizes
    requires n_in_bounds { n ≤ length s.now }
    requires ready { Ready second.now depth at (rest n s.now) }
    ensures { Measured second.now depth at (rest n s.now) result }
{
    of_statement(&s[n..], at, depth, second)
}

// The same of the command of w bytes and two parts at the front of s, which stands at the offset `at`.
#[cycle(of_part_of_parts_of_statement)]
fn of_parts(s: &[u8], at: usize, w: usize, depth: u8, second: &SecondParts) -> Sizes
    requires w_bound { w ≤ 2 }
    requires pair { Pair second.now (depth - 1) at w s.now }
    ensures { MeasuredTwo second.now (depth - 1) at w s.now result }
{
    let m = second[at] as usize;
    let p = of_part(s, w, at + w, depth - 1, second);
    let q = of_part(s, m - at, m, depth - 1, second);
    around_two(p, q, w as u32)
}
