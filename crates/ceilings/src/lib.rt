// The ceiling on the reactions of an instant (02, item 6), from the bytes of a sequence and a read-back set: how many commands a
// statement has, how many loops and signals stand around one, and the product of these numbers.
#![tactic(auto)]

ghost use Rattle.std.specs.Prelude.{◌≡◌, ◌+◌, ◌*◌, ◌^◌, ℕ, length, List};
ghost use Rattle.spec_base.specs.Limits.{max_depth, signal_count};
ghost use Rattle.ceilings.specs.Extents.{HeadAt, Countable, Tallied, HasWith};
ghost use Rattle.spec_base.specs.Sets.{members_from};
ghost use Rattle.ceilings.specs.Ceilings.{Plannable, product};
ghost use Rattle.spec_sequence.specs.Check.{checked};
ghost use Rattle.spec_sequence.specs.Ceilings.{ceiling_of};
ghost use Rattle.checks.specs.Verdict.{Passed};
ghost use Rattle.ceilings.specs.Plans.{PlanOf};

use layout::SecondParts;
use limits::rows::Refusal;
use notes::Notes;

// Of a statement: its commands, and the greatest numbers of loops and of signals around one.
#[derive(Clone, Copy, Debug, PartialEq, Eq)]
pub struct Extent {
    pub commands: u32,
    pub loops: u32,
    pub signals: u32,
}

// A command: its own bytes and its parts, counted.
#[derive(Clone, Copy, Debug, PartialEq, Eq)]
pub struct Head {
    pub bytes: usize,
    pub parts: u8,
}

// The command b. One tree of comparisons for both counts: each command takes one way through it, and a ceiling is faster by it than by
// `operand_count` and `part_count`.
fn opens(b: u8) -> Head
    ensures { HeadAt b result }
{
    if b < limits::SEQUENCE {
        if b == limits::NOTHING {
            return Head { bytes: 1, parts: 0 };
        }
        return Head { bytes: 2, parts: 0 };
    }
    if b < limits::LOOP {
        return Head { bytes: 1, parts: 2 };
    }
    if b == limits::LOOP {
        return Head { bytes: 1, parts: 1 };
    }
    if b == limits::PRESENT {
        return Head { bytes: 2, parts: 2 };
    }
    if b == limits::TRY {
        return Head { bytes: 1, parts: 1 };
    }
    if b == limits::SETPAUSE {
        return Head { bytes: 2, parts: 0 };
    }
    if b == limits::DELIVER {
        return Head { bytes: 6, parts: 0 };
    }
    Head { bytes: 2, parts: 1 }
}

// Of a statement: its bytes, its commands, and the greatest number of loops around one.
#[derive(Clone, Copy, Debug, PartialEq, Eq)]
pub struct Tally {
    pub bytes: usize,
    pub commands: u32,
    pub loops: u32,
}

// Those of the statement at the front of s. `left` statements are still to come, one behind the other from s[at] on; the part of a loop is
// counted by a call of its own, with one level less.
fn of_statement(s: &[u8], depth: u8) -> Tally
    requires { Countable depth s.now }
    ensures { Tallied s.now result }
{
    let mut at: usize = 0;
    let mut left: usize = 1;
    let mut commands: u32 = 0;
    let mut loops: u32 = 0;
    while 0 < left {
        let b = s[at];
        let h = opens(b);
        commands += 1;
        at += h.bytes;
        if h.parts == 0 {
            left -= 1;
        } else if h.parts == 2 {
            left += 1;
        } else if b == limits::LOOP {
            let body = of_statement(&s[at..], depth - 1);
            at += body.bytes;
            commands += body.commands;
            loops = loops.max(1 + body.loops);
            left -= 1;
        }
    }
    Tally {
        bytes: at,
        commands,
        loops,
    }
}

// The extent of the sequence s, in which so many signals stand around a command.
fn of_sequence(s: &[u8], signals: u32) -> Extent
    requires { Countable max_depth s.now }
    ensures { HasWith s.now signals result }
{
    let n = of_statement(s, limits::MAX_DEPTH);
    Extent {
        commands: n.commands,
        loops: n.loops,
        signals,
    }
}

// Each declaration is a command and a signal around one.
fn under(n: Extent, read_back: u32) -> u32
    requires { Plannable n (length (members_from signal_count 0 read_back)) }
    ensures { result ≡ product n (length (members_from signal_count 0 read_back)) }
{
    let k = signals::size(read_back) as u32;
    (k + n.commands) * (1 + n.loops) * (1 << (k + n.signals))
}

// The ceiling of a sequence that the check has passed, with the notes that it left.
fn of_accepted(sequence: &[u8], read_back: u32, notes: &Notes) -> u32
    requires { (second : List ℕ) × Passed sequence.now read_back second notes.now }
    ensures { result ≡ ceiling_of read_back (checked sequence.now read_back) }
{
    let n = of_sequence(sequence, notes::most(notes) as u32);
    under(n, read_back)
}

// The ceiling of a sequence that passes the check.
pub fn planned(sequence: &[u8], read_back: u32) -> Result<u32, Refusal>
    ensures { PlanOf read_back (checked sequence.now read_back) result }
{
    let mut second: SecondParts = [0; limits::MAX_BYTES];
    let mut notes: Notes = [0; notes::LENGTH];
    checks::check(sequence, read_back, &mut second, &mut notes)?;
    Ok(of_accepted(sequence, read_back, &notes))
}

// The ceiling of a sequence with a read-back set; of one that is turned down, 0.
pub fn ceiling(sequence: &[u8], read_back: u32) -> u32
    ensures { result ≡ ceiling_of read_back (checked sequence.now read_back) }
{
    planned(sequence, read_back).unwrap_or(0)
}
