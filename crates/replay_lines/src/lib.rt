// What the replay program prints, as a library over slices (02, item 14): one line for a file.
#![tactic(auto)]

ghost use Rattle.lines.specs.Shown.{Displays};
ghost use Rattle.spec_programs.specs.Verdict.{verdict_of};

use limits::rows::row_number;
use lines::Line;
use records::RECORD_LENGTH;

// The most bytes of a file, its head among them.
const MAX_FILE: usize = 4194304;

// The line that the program prints.
pub fn verdict(file: &[u8]) -> Line
    ensures { Displays result (verdict_of file.now) }
{
    let n = file.len();
    let at = files::inputs_begin(file);
    if MAX_FILE < n || n < at {
        return lines::cut();
    }
    let recording = &file[at..];
    match replay_call::replay(files::sequence(file), files::read_back(file), recording) {
        Err(refusal) => lines::refusal(row_number(refusal)),
        Ok(0) => lines::numbered(b"accepted ", (recording.len() / RECORD_LENGTH) as u64),
        Ok(place) => lines::numbered(b"differs at ", place as u64),
    }
}
