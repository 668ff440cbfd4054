// The file of a run (01, 'Bays to run'; 02, item 5): whether it is whole, and its sequence, read-back set and inputs.
#![tactic(auto)]

ghost use Rattle.std.specs.Prelude.{◌<◌, ◌≡◌, drop};
ghost use Rattle.spec_programs.specs.File.{sequence_length, read_back_at, inputs_at, sequence_in, read_back_in, inputs_in, first, whole};
ghost use Rattle.files.specs.Answers.{input_by};
ghost use Rattle.files.specs.declared.FileError.TheVariants.{Refused};

use limits::SIGNAL_BYTES;
use limits::rows::Refusal;

// The bytes of the length that begins a file.
const LENGTH_BYTES: usize = 2;

// The most bytes of a file, its first two among them.
const MAX_FILE: usize = 65536;

// Why a file comes to nothing: it is not whole, or the check turns its sequence down.
#[derive(Clone, Copy, Debug, PartialEq, Eq)]
pub enum FileError {
    Cut,
    Refused(Refusal),
}

impl From<Refusal> for FileError {
    ghost from_gives = { λ refusal e. e ≡ Refused refusal };

    fn from(refusal: Refusal) -> FileError {
        FileError::Refused(refusal)
    }
}

// The length that a file names for its sequence.
fn sequence_length(file: &[u8]) -> usize
    ensures value { result ≡ sequence_length file.now }
    ensures upper_bound { result < 65536 }
{
    numbers::get_le(file, 0, LENGTH_BYTES) as usize
}

pub fn sequence(file: &[u8]) -> &[u8]
    ensures { result.now ≡ sequence_in file.now }
{
    numbers::part(file, LENGTH_BYTES, sequence_length(file))
}

// The set of read-back signals, which stands behind the sequence.
pub fn read_back(file: &[u8]) -> u32
    ensures { result ≡ read_back_in file.now }
{
    let at = LENGTH_BYTES + sequence_length(file);
    numbers::get_le(file, at, SIGNAL_BYTES) as u32
}

// What stands behind the sequence: the read-back set and the inputs.
pub fn behind_sequence(file: &[u8]) -> &[u8]
    ensures { result.now ≡ drop (read_back_at file.now) file.now }
{
    let at = LENGTH_BYTES + sequence_length(file);
    numbers::part(file, at, file.len())
}

// Where the inputs begin, behind the read-back set.
pub fn inputs_begin(file: &[u8]) -> usize
    ensures value { result ≡ inputs_at file.now }
    ensures upper_bound { result < 65542 }
{
    LENGTH_BYTES + sequence_length(file) + SIGNAL_BYTES
}

pub fn is_whole(file: &[u8]) -> bool
    ensures { result ≡ whole file.now }
{
    let n = file.len();
    let at = inputs_begin(file);
    n <= MAX_FILE && LENGTH_BYTES <= n && at <= n && (n - at) % SIGNAL_BYTES == 0
}

// The input that i others stand before.
pub fn input_at(file: &[u8], i: usize) -> Option<u32>
    ensures { input_by result ≡ first (drop i (inputs_in file.now)) }
{
    let at = inputs_begin(file);
    let bytes = file.len().checked_sub(at)?;
    if bytes / SIGNAL_BYTES <= i {
        return None;
    }
    Some(numbers::get_le(file, at + SIGNAL_BYTES * i, SIGNAL_BYTES) as u32)
}
