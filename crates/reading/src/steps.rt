// Steps of the reading traversal at one command (01, 'Commands' and rows 3 to 6), outside its recursion.
ghost use Rattle.std.specs.Prelude.{◌≡◌, List, ◌∷◌, ℕ, ◌≤◌, ◌<◌, eqb};
ghost use Rattle.spec_base.specs.Limits.{max_bytes, max_signals};
ghost use Rattle.spec_sequence.specs.Commands.{Command, command_of, in_range};
ghost use Rattle.layout.specs.Layout.{put_second};
ghost use Rattle.layout.specs.Notes.{pauses_counted};
ghost use Rattle.reading.specs.Steps.{isChoice, is_declaration, Declared};

use layout::SecondParts;
use notes::Notes;

// Whether x may be the operand of an exit.
pub fn is_exit(x: u8) -> bool
    ensures { (xs : List ℕ) → result ≡ in_range Command.exit (x ∷ xs) }
{
    (1..=limits::MAX_EXIT).contains(&x)
}

// Whether the command b has two parts behind an operand.
pub fn is_choice(b: u8) -> bool
    ensures { result ≡ isChoice (command_of b) }
{
    b == limits::PRESENT
}

// Whether the command b declares a signal.
pub fn declares(b: u8) -> bool
    ensures { result ≡ is_declaration (command_of b) }
{
    b == limits::SIGNAL
}

// Whether no level is left for a command (row 6).
pub fn is_deep(depth: u8) -> bool
    ensures { result ≡ eqb depth 0 }
{
    depth == 0
}

// A signal command where so many are allowed: how many are allowed inside it, which is noted; nothing where none is left.
pub fn declare(signals: u8, notes: &mut Notes) -> Option<u8>
    requires { signals ≤ max_signals }
    ensures { Declared signals notes.old notes.new result }
{
    let left = signals.checked_sub(1)?;
    notes::signal(left, notes);
    Some(left)
}

// The second part, at offset m, of the command at offset `at`: where it begins, and the pauses noted so far at the byte before it.
pub fn mark(at: usize, m: usize, notes: &Notes, second: &mut SecondParts)
    requires { (at < max_bytes) × (0 < m) × (m ≤ max_bytes) × (pauses_counted notes.now ≤ max_bytes) }
    ensures { second.new ≡ put_second second.old at m (pauses_counted notes.now) }
{
    second[at] = m as u16;
    second[m - 1] = notes::count(notes) as u16;
}
