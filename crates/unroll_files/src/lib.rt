// What the unroll program writes, as a library over slices (02, item 13): the file of a run with its loops written out.
#![tactic(auto)]

ghost use Rattle.std.specs.Prelude.{◌≡◌};
ghost use Rattle.spec_base.specs.Bytes.{le_bytes};
ghost use Rattle.spec_programs.specs.File.{length_bytes};
ghost use Rattle.spec_programs.specs.Output.{output_of};
ghost use Rattle.unroll_files.specs.Answers.{output_by};

use files::FileError;

// The result goes to the front of the buffer, and its length is answered, or why there is none.
pub fn unroll(file: &[u8], buffer: &mut [u8]) -> Result<usize, FileError>
    ensures { output_by file.now buffer.new result ≡ output_of file.now buffer.old }
{
    if !files::is_whole(file) {
        return Err(FileError::Cut);
    }
    Ok(unroll_call::unroll(files::sequence(file), files::read_back(file), buffer)?)
}

// The two bytes that begin a file: the length of its sequence.
pub fn length_bytes(count: usize) -> [u8; 2]
    ensures { result ≡ le_bytes length_bytes count }
{
    ((count % 65536) as u16).to_le_bytes()
}
