// What the run program prints, as a library over slices (01, 'Bays to run'): what the file of a run comes to, and its listing piece
// by piece.
#![tactic(auto)]

ghost use Rattle.std.specs.Prelude.{ℕ, ◌≡◌, List, drop};
ghost use Rattle.spec_programs.specs.Stages.{opening, isFinished, running, finished, opened, turn_of, turn as Stages·turn};
ghost use Rattle.listing.specs.Stages.{stage_in, stage_after};
ghost use Rattle.spec_programs.specs.File.{file_of, inputs_in, first, sequence_in, read_back_in};
ghost use Rattle.listing.specs.Opened.{file_by};
ghost use Rattle.std.proofs.Math.Option.{some};
ghost use Rattle.listing.specs.Pieces.{turn_at, Prints};
ghost use Rattle.spec_tick.specs.Demands.{cleared};
ghost use Rattle.spec_programs.specs.Text.{heading as Text·heading};
ghost use Rattle.lines.specs.Shown.{Displays};

use files::FileError;
use lines::Line;
use records::{ANSWER_LENGTH, STATE_LENGTH};

// Before the first line, before the instant that so many inputs precede, before `end`, or after it.
#[derive(Clone, Copy, Debug, PartialEq, Eq)]
pub enum Stage {
    Opening,
    Running(usize),
    Closing,
    Finished,
}

// A run under way: its stage, and the machine's state record.
#[derive(Clone, Copy, Debug, PartialEq, Eq)]
pub struct Run {
    pub stage: Stage,
    pub state: [u8; STATE_LENGTH],
}

// A run before its first line.
pub fn start() -> Run
    ensures { (file : List ℕ) → stage_in file result ≡ opening file }
{
    Run {
        stage: Stage::Opening,
        state: [0; STATE_LENGTH],
    }
}

// Whether a run is after its last piece.
pub fn is_finished(run: Run) -> bool
    ensures { (file : List ℕ) → result ≡ isFinished (stage_in file run) }
{
    matches!(run.stage, Stage::Finished)
}

// The stage after an instant: a machine that is over ends the run, or else i inputs precede the next instant.
fn following(phase: u8, i: usize) -> Stage
    ensures { result ≡ stage_after phase i }
{
    if phase == records::OVER {
        Stage::Closing
    } else {
        Stage::Running(i)
    }
}

// Whether a file can be run.
fn open(file: &[u8]) -> Result<(), FileError>
    ensures { file_by file.now result ≡ file_of file.now }
{
    if !files::is_whole(file) {
        return Err(FileError::Cut);
    }
    checks::verdict(files::sequence(file), files::read_back(file))?;
    Ok(())
}

// A piece of a listing, and the run after it.
#[derive(Clone, Copy, Debug, PartialEq, Eq)]
pub struct Piece {
    pub line: Line,
    pub run: Run,
}

// The instant on the input e: a tick, and its line.
fn instant(file: &[u8], i: usize, e: u32, state: [u8; STATE_LENGTH]) -> Piece
    requires { first (drop i (inputs_in file.now)) ≡ some e }
    ensures { Prints file.now (turn_at file.now state i) result }
{
    let mut after = state;
    let mut answer = [0u8; ANSWER_LENGTH];
    let read_back = files::read_back(file);
    let _ = instants::tick(files::sequence(file), &mut after, e, read_back, &mut answer);
    let line = lines::line_behind(i, &after, &answer);
    let run = Run {
        stage: following(records::phase(&after), i + 1),
        state: after,
    };
    Piece { line, run }
}

// The next piece of the listing of a file; after the last one all are empty.
pub fn turn(file: &[u8], run: Run) -> Piece
    ensures { Prints file.now (turn_of (stage_in file.now run)) result }
{
    match run.stage {
        Stage::Opening => opening(file),
        Stage::Running(i) => step(file, i, run.state),
        Stage::Closing => last(lines::ending()),
        Stage::Finished => last(lines::nothing()),
    }
}

// The last piece of a listing.
fn last(line: Line) -> Piece
    ensures { (file text : List ℕ) → Displays line text → Prints file (Stages·turn text finished) result }
{
    let run = Run {
        stage: Stage::Finished,
        state: [0; STATE_LENGTH],
    };
    Piece { line, run }
}

// The first piece: the heading, or why there is no run.
fn opening(file: &[u8]) -> Piece
    ensures { Prints file.now (opened (file_of file.now)) result }
{
    match open(file) {
        Ok(()) => heading(),
        Err(error) => last(lines::failure(error)),
    }
}

// The first piece of a run.
fn heading() -> Piece
    ensures { (file : List ℕ)
        → Prints file (Stages·turn Text·heading (running (sequence_in file) (read_back_in file) cleared 1 (inputs_in file))) result }
{
    let run = Run {
        stage: Stage::Running(0),
        state: [0; STATE_LENGTH],
    };
    Piece {
        line: lines::heading(),
        run: run,
    }
}

// The instant that i inputs precede, or the end where no input is left.
fn step(file: &[u8], i: usize, state: [u8; STATE_LENGTH]) -> Piece
    ensures { Prints file.now (turn_at file.now state i) result }
{
    match files::input_at(file, i) {
        None => last(lines::ending()),
        Some(e) => instant(file, i, e, state),
    }
}
