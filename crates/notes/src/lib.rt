// The notes that reading takes of a statement, in an array of words that the caller lends: the labels of its pauses and setpauses,
// the ranks of the pauses, the most signals around a command, the farms named by 0C.
#![tactic(auto)]

ghost use Rattle.std.specs.Prelude.{◌≡◌, ◌<◌, ◌-◌, ◌≤◌, ◌^◌, cond, ltb};
ghost use Rattle.spec_base.specs.Limits.{label_count, max_bytes, signal_count, max_signals};
ghost use Rattle.layout.specs.Notes.{pauses_counted, notePause, noteSetpause, noteFarm, note_signals, pausesIn, setpausesIn, twice_in, most_in, farms_in, rank_in};
ghost use Rattle.spec_base.specs.Sets.{empty};
ghost use Rattle.labels.specs.Labels.{label_set};
ghost use Rattle.layout.specs.Walk.{Notable, LeafNoted};

use limits::WORD_LABELS;

// The fields of the notes (layout, specs/Notes), each by its index.
// The labels of pauses and of setpauses in two words each, what came twice, the number of pauses, the most signal commands around a
// command, the farms named, then a rank for each label.
pub const LENGTH: usize = RANKS + limits::LABEL_COUNT;

pub type Notes = [u64; LENGTH];

pub const PAUSES: usize = 0;

pub const SETPAUSES: usize = 2;

pub const TWICE: usize = 4;

pub const COUNT: usize = 5;

pub const MOST: usize = 6;

pub const FARMS: usize = 7;

pub const RANKS: usize = 8;

// A pause with label l was read.
fn note_pause(l: u8, notes: &mut Notes)
    requires { (l < label_count) × (pauses_counted notes.old < max_bytes) }
    ensures { notes.new ≡ notePause l notes.old }
{
    let word = PAUSES + (l / WORD_LABELS) as usize;
    let bit = 1u64 << (l % WORD_LABELS);
    let seen = notes[word];
    let count = notes[COUNT];
    notes[TWICE] = notes[TWICE] | (seen & bit);
    notes[word] = seen | bit;
    notes[RANKS + l as usize] = count;
    notes[COUNT] = count + 1;
}

// A setpause with label l was read.
fn note_setpause(l: u8, notes: &mut Notes)
    requires { l < label_count }
    ensures { notes.new ≡ noteSetpause l notes.old }
{
    let word = SETPAUSES + (l / WORD_LABELS) as usize;
    notes[word] = notes[word] | (1u64 << (l % WORD_LABELS));
}

// An emission of s with litres was read.
fn note_farm(s: u8, notes: &mut Notes)
    requires { s < signal_count }
    ensures { notes.new ≡ noteFarm s notes.old }
{
    notes[FARMS] = notes[FARMS] | (1u64 << s);
}

// A signal command was read, inside which so many more are allowed.
pub fn signal(left: u8, notes: &mut Notes)
    requires { left ≤ max_signals }
    ensures { notes.new ≡ note_signals (max_signals - left) notes.old }
{
    let around = limits::MAX_SIGNALS - left;
    notes[MOST] = notes[MOST].max(u64::from(around));
}

// The command b without parts was read, whose first operand byte is x; one without a label and without litres leaves no note.
pub fn leaf(b: u8, x: u8, notes: &mut Notes)
    requires { Notable b x notes.old }
    ensures { LeafNoted b x notes.old notes.new }
{
    if b == limits::PAUSE {
        note_pause(x, notes);
        return;
    }
    if b == limits::SETPAUSE {
        note_setpause(x, notes);
        return;
    }
    if b == limits::DELIVER {
        note_farm(x, notes);
    }
}

pub fn pauses(notes: &Notes) -> labels::Labels
    ensures { label_set result ≡ pausesIn notes.now }
{
    labels::from_words(notes[PAUSES], notes[PAUSES + 1])
}

pub fn setpauses(notes: &Notes) -> labels::Labels
    ensures { label_set result ≡ setpausesIn notes.now }
{
    labels::from_words(notes[SETPAUSES], notes[SETPAUSES + 1])
}

// Whether no label of a pause came twice.
pub fn is_distinct(notes: &Notes) -> bool
    ensures { result ≡ empty (twice_in notes.now) }
{
    notes[TWICE] == 0
}

pub fn count(notes: &Notes) -> u64
    ensures { result ≡ pauses_counted notes.now }
{
    notes[COUNT]
}

// The most signal commands around a command.
pub fn most(notes: &Notes) -> u8
    requires { most_in notes.now ≤ max_signals }
    ensures { result ≡ most_in notes.now }
{
    notes[MOST] as u8
}

// The farms named.
pub fn farms(notes: &Notes) -> u32
    requires { farms_in notes.now < 2 ^ signal_count }
    ensures { result ≡ farms_in notes.now }
{
    notes[FARMS] as u32
}

// The rank of the pause l; a label outside the width has none.
pub fn rank(notes: &Notes, l: u8) -> u64
    ensures { result ≡ cond (ltb l label_count) (rank_in notes.now l) 0 }
{
    if l < limits::LABELS {
        notes[RANKS + l as usize]
    } else {
        0
    }
}
