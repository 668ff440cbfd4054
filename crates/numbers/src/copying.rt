// Bytes copied into a buffer.
ghost use Rattle.std.specs.Prelude.{◌≡◌, ◌+◌, ◌≤◌, length};
ghost use Rattle.std.proofs.lemmas.List.Edits.{sets};

// Writes bytes from index at on, one by one: `copy_from_slice` calls memcpy, and the archive asks C for memset alone.
pub fn put_bytes(buf: &mut [u8], at: usize, bytes: &[u8])
    requires { at + length bytes.now ≤ length buf.old }
    ensures { buf.new ≡ sets buf.old at bytes.now }
{
    for (i, &byte) in bytes.iter().enumerate() {
        buf[at + i] = byte;
    }
}
