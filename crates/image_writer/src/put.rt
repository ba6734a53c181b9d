//! Puts bytes into a file whose memory is allocated.

ghost use Rattle.std.specs.Prelude.{◌≡◌, ◌+◌, ◌≤◌, ◌++◌, OnOk, OnErr, length, replicate, vec_len};
ghost use Rattle.elf_records.specs.Fields.{bytes_of, splice};

use byteorder::{ByteOrder, LittleEndian};
use std::alloc::AllocError;

/// Appends `count` zeros to a file. If memory runs out, the file stays as it is.
pub fn grow(file: &mut Vec<u8>, count: usize) -> Result<(), AllocError>
    ensures ok { OnOk result (file.new.items ≡ file.old.items ++ replicate count 0) }
    ensures err { OnErr result (file.new.items ≡ file.old.items) }
{
    file.reserve_exact(count)?;
    match file.len().checked_add(count) {
        Some(end) => file.resize(end, 0),
        None => Err(AllocError),
    }
}

/// Puts zeros.
pub fn put_zeros(out: &mut [u8], at: usize, count: usize)
    requires { at + count ≤ length out.old }
    ensures { out.new ≡ splice at (replicate count 0) out.old }
{
    out[at..at + count].fill(0);
}

/// Puts bytes.
pub fn put_bytes(out: &mut [u8], at: usize, bytes: &[u8])
    requires { at + length bytes.now ≤ length out.old }
    ensures { out.new ≡ splice at bytes.now out.old }
{
    out[at..at + bytes.len()].copy_from_slice(bytes);
}

/// Puts a word of 32 bits.
pub fn put_word(out: &mut [u8], at: usize, word: u32)
    requires { at + 4 ≤ length out.old }
    ensures { out.new ≡ splice at (bytes_of 4 word) out.old }
{
    LittleEndian::write_u32(&mut out[at..], word);
}
