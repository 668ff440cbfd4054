// Commands without parts: what the traversal answers for one, and what it notes.
ghost use Rattle.std.specs.Prelude.{◌≡◌, true, ◌<◌, length, get_or};
ghost use Rattle.commands.specs.Counts.{parts_at, is_leaf};
ghost use Rattle.layout.specs.Walk.{Fitting, LeafRead, Ahead};

use crate::steps::is_exit;
use notes::Notes;

// The command b without parts at the front of s, which stands at offset `at`. One number for the answer, as in the reader.
pub fn leaf(s: &[u8], at: usize, b: u8, depth: u8, notes: &mut Notes) -> usize
    requires s_nonzero { (0 < length s.now) × (b ≡ get_or s.now 0 0) }
    requires b_value { is_leaf (parts_at b) ≡ true }
    requires fitting { Fitting at s.now notes.old }
    ensures { LeafRead depth at s.now notes.old notes.new result }
{
    let w = commands::leaf(s, b);
    if layout::ROW_UNIT <= w {
        return w;
    }
    if depth == 0 {
        return layout::DEPTH_ROW;
    }
    if w == 1 {
        return at + 1;
    }
    notes::leaf(b, s[1], notes);
    at + w
}

// The offset behind the command at the front of s if it is sound and has no parts and no litres; else nothing is noted.
// Tests and no `match` on b, as for the counts of a command (02, item 2).
pub fn ahead(s: &[u8], at: usize, depth: u8, notes: &mut Notes) -> Option<usize>
    requires { Fitting at s.now notes.old }
    ensures { Ahead depth at s.now notes.old notes.new result }
{
    if depth == 0 {
        return None;
    }
    if s.len() <= 1 {
        return None;
    }
    let b = s[0];
    let x = s[1];
    if b == limits::NOTHING {
        return Some(at + 1);
    }
    if b == limits::EMIT {
        if x < limits::SIGNALS {
            return Some(at + 2);
        }
        return None;
    }
    if b == limits::EXIT {
        if is_exit(x) {
            return Some(at + 2);
        }
        return None;
    }
    if limits::LABELS <= x {
        return None;
    }
    if b == limits::PAUSE {
        notes::leaf(b, x, notes);
        return Some(at + 2);
    }
    if b == limits::SETPAUSE {
        notes::leaf(b, x, notes);
        return Some(at + 2);
    }
    None
}
