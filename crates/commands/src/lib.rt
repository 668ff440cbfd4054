// The table of commands (01, 'Commands'; 02, items 1 and 2) by cases on the command byte, with no constant array; and the head of a
// command, which is its own bytes, with rows 3 to 5 and 18.
#![tactic(auto)]

ghost use Rattle.std.specs.Prelude.{◌≡◌, true, false, ◌<◌, length, get_or};
ghost use Rattle.spec_sequence.specs.Commands.{command_of};
ghost use Rattle.commands.specs.Counts.{count_of, operands_at, parts_at, operand_in_range, is_leaf};
ghost use Rattle.spec_sequence.specs.Reader.{front};
ghost use Rattle.layout.specs.Walk.{head_of};
ghost use Rattle.commands.specs.Shapes.{HasShape};

// The operand bytes of the command b; a byte without a command has no count.
// Comparisons, here and in `part_count`: a match may become a lookup table, and 02, item 2 asks for no constant array.
pub fn operand_count(b: u8) -> Option<u8>
    ensures { result ≡ count_of (operands_at b) }
{
    if b == 0 {
        return Some(0);
    }
    if b < 4 {
        return Some(1);
    }
    if b < 7 {
        return Some(0);
    }
    if b == 9 {
        return Some(0);
    }
    if b < limits::LAST_COMMAND {
        return Some(1);
    }
    if b == 12 {
        return Some(5);
    }
    None
}

// The parts of the command b; a byte without a command has no count.
pub fn part_count(b: u8) -> Option<u8>
    ensures { result ≡ count_of (parts_at b) }
{
    if b < 4 {
        return Some(0);
    }
    if b < 6 {
        return Some(2);
    }
    if b == 7 {
        return Some(2);
    }
    if b == 10 {
        return Some(0);
    }
    if b == 12 {
        return Some(0);
    }
    if limits::LAST_COMMAND < b {
        return None;
    }
    Some(1)
}

// Whether x, the first operand byte of the command b, is in its range; of a command without an operand, in that of signals.
fn in_range(b: u8, x: u8) -> bool
    ensures { result ≡ operand_in_range (command_of b) x }
{
    match b {
        limits::EXIT => matches!(x, 1..=limits::MAX_EXIT),
        limits::PAUSE | limits::SETPAUSE => x < limits::LABELS,
        _ => x < limits::SIGNALS,
    }
}

// Whether b is a command without parts. A byte without a command is not.
pub fn is_leaf(b: u8) -> bool
    ensures { result ≡ is_leaf (parts_at b) }
{
    part_count(b) == Some(0)
}

// A command by the number of its parts, with the bytes of its own.
#[derive(Clone, Copy, Debug, PartialEq, Eq)]
pub enum Shape {
    Leaf(usize),
    One(usize),
    Two(usize),
}

// The shape of the command b, by which a traversal goes; of a byte without a command, nothing is promised.
pub fn shape_of(b: u8) -> Shape
    ensures { HasShape b result }
{
    match b {
        limits::NOTHING => Shape::Leaf(1),
        limits::SEQUENCE => Shape::Two(1),
        limits::PARALLEL => Shape::Two(1),
        limits::LOOP => Shape::One(1),
        limits::PRESENT => Shape::Two(2),
        limits::SIGNAL => Shape::One(2),
        limits::TRY => Shape::One(1),
        limits::SUSPEND => Shape::One(2),
        limits::DELIVER => Shape::Leaf(6),
        _ => Shape::Leaf(2),
    }
}

// The head of the command 0C at the front of s: its bytes, or the row that turns it down.
// One number, here, in `leaf` and in `width`: a Result would go through memory at every command that is read.
fn delivery(s: &[u8]) -> usize
    requires { (0 < length s.now) × (get_or s.now 0 0 ≡ 12) }
    ensures { result ≡ head_of (front s.now) }
{
    if s.len() <= 5 {
        return layout::MISSING_ROW;
    }
    if limits::SIGNALS <= s[1] {
        return layout::OPERAND_ROW;
    }
    if litres::is_whole(litres::bits(s, 2)) {
        6
    } else {
        layout::LITRES_ROW
    }
}

// The head of the command b at the front of s, which has no parts.
pub fn leaf(s: &[u8], b: u8) -> usize
    requires s_nonzero { (0 < length s.now) × (b ≡ get_or s.now 0 0) }
    requires b_value { is_leaf (parts_at b) ≡ true }
    ensures { result ≡ head_of (front s.now) }
{
    if b == limits::NOTHING {
        return 1;
    }
    if s.len() <= 1 {
        return layout::MISSING_ROW;
    }
    if b == limits::DELIVER {
        return delivery(s);
    }
    if in_range(b, s[1]) {
        2
    } else {
        layout::OPERAND_ROW
    }
}

// The head of the command at the front of s, whose byte b is that of a command with parts or of no command.
pub fn width(s: &[u8], b: u8) -> usize
    requires s_nonzero { (0 < length s.now) × (b ≡ get_or s.now 0 0) }
    requires b_value { is_leaf (parts_at b) ≡ false }
    ensures { result ≡ head_of (front s.now) }
{
    match operand_count(b) {
        None => layout::COMMAND_ROW,
        Some(n) => {
            if n == 0 {
                return 1;
            }
            if s.len() < 2 {
                return layout::MISSING_ROW;
            }
            if limits::SIGNALS <= s[1] {
                return layout::OPERAND_ROW;
            }
            2
        }
    }
}
