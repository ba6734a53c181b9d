//! Entries of the dynamic array (gABI, "Dynamic Section").

ghost use Rattle.std.specs.Prelude.{◌≡◌, ◌+◌, ◌≤◌, length, take, drop};
ghost use Rattle.elf_records.specs.Fields.{splice};
ghost use Rattle.elf_records.specs.FieldLaws.{IsReadAt};
ghost use Rattle.elf_records.specs.Records.{dynamic_at, dynamic_bytes};

use crate::field::{fits, put_u64, u64_at};

// Tags (gABI, "Dynamic Section").
/// The end of the array.
pub const DT_NULL: u64 = 0;
/// The address of the hash table.
pub const DT_HASH: u64 = 4;
/// The address of the string table.
pub const DT_STRTAB: u64 = 5;
/// The address of the symbol table.
pub const DT_SYMTAB: u64 = 6;
/// The address of the relocation entries.
pub const DT_RELA: u64 = 7;
/// How many bytes these take.
pub const DT_RELASZ: u64 = 8;
/// How many bytes each of them takes.
pub const DT_RELAENT: u64 = 9;
/// How many bytes the string table takes.
pub const DT_STRSZ: u64 = 10;
/// How many bytes each symbol takes.
pub const DT_SYMENT: u64 = 11;
/// Flags, as `DF_STATIC_TLS`.
pub const DT_FLAGS: u64 = 30;
/// Flags of the GNU tools, as `DF_1_PIE`.
pub const DT_FLAGS_1: u64 = 0x6fff_fffb;

// Flags of those two tags.
/// The image's code takes its thread-local data at a fixed distance from the thread pointer.
pub const DF_STATIC_TLS: u64 = 0x10;
/// The image is a program that may be loaded anywhere.
pub const DF_1_PIE: u64 = 0x0800_0000;

/// An entry of the dynamic array, by which a loader finds an image's tables.
#[derive(Clone, Copy, PartialEq, Eq, Debug)]
pub struct DynamicEntry {
    /// What the value means, as [`DT_SYMTAB`].
    pub tag: u64,
    /// An address, a number of bytes or flags, by the tag.
    pub value: u64,
}

impl DynamicEntry {
    /// Bytes that an entry takes in a file.
    pub const SIZE: u64 = 16;
}

/// Reads the entry of a dynamic array at offset `at`. `None` exactly where it would pass the end of `bytes`.
#[tactic(auto, unfolding(crate::specs::Records::dynamic_at))]
pub fn read_dynamic(bytes: &[u8], at: u64) -> Option<DynamicEntry>
    ensures { IsReadAt DynamicEntry.SIZE dynamic_at bytes.now at result }
{
    if !fits(bytes, at, DynamicEntry::SIZE) {
        return None;
    }
    let at = at as usize;
    Some(DynamicEntry {
        tag: u64_at(bytes, at),
        value: u64_at(bytes, at + 8),
    })
}

/// Writes the entry of a dynamic array at offset `at`, over the bytes that stand there.
pub fn write_dynamic(fields: &DynamicEntry, bytes: &mut [u8], at: u64)
    requires { at + DynamicEntry.SIZE ≤ length bytes.old }
    ensures bytes { bytes.new ≡ splice at (dynamic_bytes fields.now) bytes.old }
    ensures again { dynamic_at at bytes.new ≡ fields.now }
    ensures before { take at bytes.new ≡ take at bytes.old }
    ensures after { drop (at + DynamicEntry.SIZE) bytes.new ≡ drop (at + DynamicEntry.SIZE) bytes.old }
{
    let at = at as usize;
    put_u64(bytes, at, fields.tag);
    put_u64(bytes, at + 8, fields.value);
}
