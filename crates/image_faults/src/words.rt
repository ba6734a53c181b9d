//! A number of four bytes, as a hash table has them.

ghost use Rattle.std.specs.Prelude.{◌≡◌, ◌+◌, ◌^◌, ◌<◌, ◌≤◌, length};
ghost use Rattle.elf_records.specs.Fields.{number_at};

use byteorder::{ByteOrder, LittleEndian};

/// The number at an offset.
pub fn word_at(bytes: &[u8], at: u64) -> u32
    requires { at + 4 ≤ length bytes.now }
    ensures { result ≡ number_at 4 at bytes.now }
{
    LittleEndian::read_u32(&bytes[at as usize..])
}
