//! Program headers (gABI, "Program Header").

ghost use Rattle.std.specs.Prelude.{◌≡◌, ◌+◌, ◌≤◌, length, take, drop};
ghost use Rattle.elf_records.specs.Fields.{splice};
ghost use Rattle.elf_records.specs.FieldLaws.{IsReadAt};
ghost use Rattle.elf_records.specs.Records.{segment_at, segment_bytes};

use crate::field::{fits, put_u32, put_u64, u32_at, u64_at};

// Segment types (gABI, "Segment Types").
/// A part that is loaded into memory.
pub const PT_LOAD: u32 = 1;
/// The dynamic array.
pub const PT_DYNAMIC: u32 = 2;
/// The TLS segment: the initial image of each thread's block.
pub const PT_TLS: u32 = 7;
/// A part that only the loader writes.
pub const PT_GNU_RELRO: u32 = 0x6474_e552;

// Segment flags (gABI, "Segment Permissions").
/// May be executed.
pub const PF_X: u32 = 1;
/// May be written.
pub const PF_W: u32 = 2;
/// May be read.
pub const PF_R: u32 = 4;

/// An entry of the program header table: a part of the file, and where it lies in memory once it is loaded.
#[derive(Clone, Copy, PartialEq, Eq, Debug)]
pub struct Segment {
    /// The type, as [`PT_LOAD`].
    pub kind: u32,
    /// Bits that say how the segment may be used, as [`PF_R`].
    pub flags: u32,
    /// Where the segment's bytes begin in the file.
    pub offset: u64,
    /// The address of its first byte in memory.
    pub vaddr: u64,
    /// Its physical address, where one matters.
    pub paddr: u64,
    /// How many bytes of the file it has.
    pub filesz: u64,
    /// How many bytes of memory it has; those past `filesz` are zeros.
    pub memsz: u64,
    /// A power of two; the address and the offset in the file leave the same remainder.
    pub align: u64,
}

impl Segment {
    /// Bytes that a program header takes in a file.
    pub const SIZE: u64 = 56;
}

/// Reads the program header at offset `at`. `None` exactly where it would pass the end of `bytes`.
#[tactic(auto, unfolding(crate::specs::Records::segment_at))]
pub fn read_segment(bytes: &[u8], at: u64) -> Option<Segment>
    ensures { IsReadAt Segment.SIZE segment_at bytes.now at result }
{
    if !fits(bytes, at, Segment::SIZE) {
        return None;
    }
    let at = at as usize;
    Some(Segment {
        kind: u32_at(bytes, at),
        flags: u32_at(bytes, at + 4),
        offset: u64_at(bytes, at + 8),
        vaddr: u64_at(bytes, at + 16),
        paddr: u64_at(bytes, at + 24),
        filesz: u64_at(bytes, at + 32),
        memsz: u64_at(bytes, at + 40),
        align: u64_at(bytes, at + 48),
    })
}

/// Writes the program header at offset `at`, over the bytes that stand there.
pub fn write_segment(fields: &Segment, bytes: &mut [u8], at: u64)
    requires { at + Segment.SIZE ≤ length bytes.old }
    ensures bytes { bytes.new ≡ splice at (segment_bytes fields.now) bytes.old }
    ensures again { segment_at at bytes.new ≡ fields.now }
    ensures before { take at bytes.new ≡ take at bytes.old }
    ensures after { drop (at + Segment.SIZE) bytes.new ≡ drop (at + Segment.SIZE) bytes.old }
{
    let at = at as usize;
    put_u32(bytes, at, fields.kind);
    put_u32(bytes, at + 4, fields.flags);
    put_u64(bytes, at + 8, fields.offset);
    put_u64(bytes, at + 16, fields.vaddr);
    put_u64(bytes, at + 24, fields.paddr);
    put_u64(bytes, at + 32, fields.filesz);
    put_u64(bytes, at + 40, fields.memsz);
    put_u64(bytes, at + 48, fields.align);
}
