// What row 10 asks of the labels, by one traversal over the bytes. It fills two matrices: for each label the pauses before it and
// exclusive with it, and the pauses and setpauses before it on another side of a parallel.
ghost use Rattle.std.specs.Prelude.{◌-◌, ◌≤◌, length};
ghost use Rattle.spec_base.specs.Limits.{max_depth};
ghost use Rattle.layout.specs.Layout.{rest};
ghost use Rattle.wellformed.specs.Survey.{Standing, StandingTwo, Passes, PassesTwo, Surveys};

use crate::exclusion::{Before, Walked};
use crate::matrix::Matrix;

// Adds what the statement at the front of s, at the offset `at`, adds to the two matrices, and answers its end and its labels.
#[cycle(pass_pass_part_pass_parts)]
fn pass(
    s: &[u8],
    at: usize,
    depth: u8,
    before: Before,
    exclusive: &mut Matrix,
    concurrent: &mut Matrix,
) -> Walked
    requires { Standing depth at s.now }
    ensures { Passes depth at s.now before result
        exclusive.old exclusive.new concurrent.old concurrent.new }
{
    let command = s[0];
    match command {
        limits::NOTHING => crate::exclusion::at_other(at + 1),
        limits::PAUSE => crate::exclusion::at_pause(s[1], at + 2, before, exclusive, concurrent),
        limits::SEQUENCE => pass_parts(s, at, 1, false, depth, before, exclusive, concurrent),
        limits::PARALLEL => pass_parts(s, at, 1, true, depth, before, exclusive, concurrent),
        limits::LOOP => pass_part(s, 1, at + 1, depth - 1, before, exclusive, concurrent),
        limits::PRESENT => pass_parts(s, at, 2, false, depth, before, exclusive, concurrent),
        limits::SIGNAL => pass_part(s, 2, at + 2, depth - 1, before, exclusive, concurrent),
        limits::TRY => pass_part(s, 1, at + 1, depth - 1, before, exclusive, concurrent),
        limits::SETPAUSE => crate::exclusion::at_setpause(s[1], at + 2, before, concurrent),
        limits::SUSPEND => pass_part(s, 2, at + 2, depth - 1, before, exclusive, concurrent),
        limits::DELIVER => crate::exclusion::at_other(at + 6),
        _ => crate::exclusion::at_other(at + 2),
    }
}

// The same of the part from s[n] on, which stands at the offset `at`.
#[cycle(pass_pass_part_pass_parts)]
fn pass_part(
    s: &[u8],
    n: usize,
    at: usize,
    depth: u8,
    before: Before,
    exclusive: &mut Matrix,
    concurrent: &mut Matrix,
) -> Walked
    requires n_in_bounds { n ≤ length s.now }
    requires standing { Standing depth at (rest n s.now) }
    ensures { Passes depth at (rest n s.now) before result
        exclusive.old exclusive.new concurrent.old concurrent.new }
{
    pass(&s[n..], at, depth, before, exclusive, concurrent)
}

// The same of the two parts of the command of w bytes at the front of s, which stands at the offset `at`.
#[cycle(pass_pass_part_pass_parts)]
fn pass_parts(
    s: &[u8],
    at: usize,
    w: usize,
    parallel: bool,
    depth: u8,
    before: Before,
    exclusive: &mut Matrix,
    concurrent: &mut Matrix,
) -> Walked
    requires { StandingTwo (depth - 1) at w s.now }
    ensures { PassesTwo (depth - 1) at w s.now parallel before result
        exclusive.old exclusive.new concurrent.old concurrent.new }
{
    let p = pass_part(s, w, at + w, depth - 1, before, exclusive, concurrent);
    let m = p.end;
    let n = m - at;
    let beyond = crate::exclusion::before_second(parallel, before, p);
    let q = pass_part(s, n, m, depth - 1, beyond, exclusive, concurrent);
    crate::exclusion::joined(p, q)
}

// What the labels of the whole statement add to the two matrices.
pub fn survey(s: &[u8], exclusive: &mut Matrix, concurrent: &mut Matrix)
    requires { Standing max_depth 0 s.now }
    ensures { Surveys s.now
        exclusive.old exclusive.new concurrent.old concurrent.new }
{
    let none = labels::empty();
    let before = Before {
        exclusive: none,
        concurrent: none,
    };
    pass(&s[0..], 0, limits::MAX_DEPTH, before, exclusive, concurrent);
}
