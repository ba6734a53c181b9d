//! Relocation entries with an addend (gABI, "Relocation").

ghost use Rattle.std.specs.Prelude.{◌≡◌, ◌+◌, ◌*◌, ◌^◌, ◌≤◌, ◌↔◌, IsTrue, length, take, drop};
ghost use Rattle.elf_records.specs.Fields.{splice};
ghost use Rattle.elf_records.specs.FieldLaws.{IsReadAt};
ghost use Rattle.elf_records.specs.Records.{rela_at, rela_bytes, rela_kind, rela_symbol};
ghost use Rattle.elf_records.specs.Relocations.{relocation_kind, width_of};

use crate::field::{fits, i64_at, put_i64, put_u64, u64_at};

// Relocation types, by what they write: S is the symbol's address, A the addend, P the address of the field, G the
// address of the symbol's entry in the GOT (psABI, "Relocation Types"). TLS types: psABI, "Thread-Local Storage",
// and Drepper's TLS paper.
/// Nothing.
pub const R_X86_64_NONE: u32 = 0;
/// S + A, in 64 bits.
pub const R_X86_64_64: u32 = 1;
/// S + A - P, in 32 bits.
pub const R_X86_64_PC32: u32 = 2;
/// As `R_X86_64_PC32`, for a function that may be called through the procedure linkage table.
pub const R_X86_64_PLT32: u32 = 4;
/// In an image: the address of a function of another image.
pub const R_X86_64_JUMP_SLOT: u32 = 7;
/// In an image: how far the loader moved it, plus A.
pub const R_X86_64_RELATIVE: u32 = 8;
/// G + A - P, in 32 bits.
pub const R_X86_64_GOTPCREL: u32 = 9;
/// S + A, in 32 bits, unsigned.
pub const R_X86_64_32: u32 = 10;
/// S + A, in 32 bits, signed.
pub const R_X86_64_32S: u32 = 11;
/// In an image: the number of the module that holds the symbol.
pub const R_X86_64_DTPMOD64: u32 = 16;
/// In an image: the symbol's offset in its module's TLS block.
pub const R_X86_64_DTPOFF64: u32 = 17;
/// In an image: the symbol's offset from the thread pointer.
pub const R_X86_64_TPOFF64: u32 = 18;
/// G + A - P, where G is a pair in the GOT: the symbol's module and its offset there.
pub const R_X86_64_TLSGD: u32 = 19;
/// G + A - P, where G is a pair in the GOT: this module, and 0.
pub const R_X86_64_TLSLD: u32 = 20;
/// The symbol's offset in this module's TLS block, plus A.
pub const R_X86_64_DTPOFF32: u32 = 21;
/// G + A - P, where G is a GOT entry with the symbol's offset from the thread pointer.
pub const R_X86_64_GOTTPOFF: u32 = 22;
/// The symbol's offset from the thread pointer, plus A.
pub const R_X86_64_TPOFF32: u32 = 23;
/// G + A - P, where G is the symbol's TLS descriptor.
pub const R_X86_64_GOTPC32_TLSDESC: u32 = 34;
/// No field: marks the call through a TLS descriptor.
pub const R_X86_64_TLSDESC_CALL: u32 = 35;
/// In an image: a TLS descriptor, two words.
pub const R_X86_64_TLSDESC: u32 = 36;
/// As `R_X86_64_GOTPCREL`, in an instruction that a linker may rewrite.
pub const R_X86_64_GOTPCRELX: u32 = 41;
/// The same, in an instruction with a REX prefix.
pub const R_X86_64_REX_GOTPCRELX: u32 = 42;

/// A type of relocation that linking takes from an object, named without its R_X86_64.
#[derive(Clone, Copy, PartialEq, Eq, Debug)]
pub enum RelocationKind {
    Nothing,
    Absolute64,
    Pc32,
    Plt32,
    GotPcRel,
    Absolute32,
    Absolute32Signed,
    TlsGd,
    TlsLd,
    DtpOff32,
    GotTpOff,
    TpOff32,
    GotPc32TlsDesc,
    TlsDescCall,
    GotPcRelX,
    RexGotPcRelX,
}

impl RelocationKind {
    /// The type with this number.
    #[inline]
    pub fn numbered(number: u32) -> Option<RelocationKind>
        ensures { result ≡ relocation_kind number }
    {
        match number {
            R_X86_64_NONE => Some(RelocationKind::Nothing),
            R_X86_64_64 => Some(RelocationKind::Absolute64),
            R_X86_64_PC32 => Some(RelocationKind::Pc32),
            R_X86_64_PLT32 => Some(RelocationKind::Plt32),
            R_X86_64_GOTPCREL => Some(RelocationKind::GotPcRel),
            R_X86_64_32 => Some(RelocationKind::Absolute32),
            R_X86_64_32S => Some(RelocationKind::Absolute32Signed),
            R_X86_64_TLSGD => Some(RelocationKind::TlsGd),
            R_X86_64_TLSLD => Some(RelocationKind::TlsLd),
            R_X86_64_DTPOFF32 => Some(RelocationKind::DtpOff32),
            R_X86_64_GOTTPOFF => Some(RelocationKind::GotTpOff),
            R_X86_64_TPOFF32 => Some(RelocationKind::TpOff32),
            R_X86_64_GOTPC32_TLSDESC => Some(RelocationKind::GotPc32TlsDesc),
            R_X86_64_TLSDESC_CALL => Some(RelocationKind::TlsDescCall),
            R_X86_64_GOTPCRELX => Some(RelocationKind::GotPcRelX),
            R_X86_64_REX_GOTPCRELX => Some(RelocationKind::RexGotPcRelX),
            _ => None,
        }
    }
}

/// How many bytes the field of a relocation of this type has; 0 for a number that is not a [`RelocationKind`].
#[inline]
pub fn width_of(number: u32) -> u64
    ensures { result ≡ width_of (relocation_kind number) }
{
    match RelocationKind::numbered(number) {
        Some(kind) => kind.width(),
        None => 0,
    }
}

/// An entry of a section of type [`SHT_RELA`](crate::section_header::SHT_RELA): how to fill one field of the section
/// that it applies to.
#[derive(Clone, Copy, PartialEq, Eq, Debug)]
pub struct Rela {
    /// Where the field begins: in an object an offset in its section, in an image an address.
    pub offset: u64,
    /// The symbol's number times 2^32, plus the relocation's type.
    pub info: u64,
    /// The addend, which is added to the symbol's value.
    pub addend: i64,
}

impl Rela {
    /// Bytes that an entry takes in a file.
    pub const SIZE: u64 = 24;

    /// The `info` of an entry for this symbol, of this type.
    pub fn info_of(symbol: u32, kind: u32) -> u64
        ensures { result ≡ 2 ^ 32 * symbol + kind }
    {
        (1 << 32) * u64::from(symbol) + u64::from(kind)
    }

    /// The symbol's number in the symbol table.
    #[inline(always)]
    pub fn symbol(self) -> u32
        ensures { result ≡ rela_symbol self }
    {
        (self.info / (1 << 32)) as u32
    }

    /// The type, as [`R_X86_64_TPOFF32`].
    #[inline(always)]
    pub fn kind(self) -> u32
        ensures { result ≡ rela_kind self }
    {
        (self.info % (1 << 32)) as u32
    }
}

/// Reads the relocation entry at offset `at`. `None` exactly where it would pass the end of `bytes`.
#[inline(always)]
#[tactic(auto, unfolding(crate::specs::Records::rela_at))]
pub fn read_rela(bytes: &[u8], at: u64) -> Option<Rela>
    ensures { IsReadAt Rela.SIZE rela_at bytes.now at result }
{
    if !fits(bytes, at, Rela::SIZE) {
        return None;
    }
    let at = at as usize;
    Some(Rela {
        offset: u64_at(bytes, at),
        info: u64_at(bytes, at + 8),
        addend: i64_at(bytes, at + 16),
    })
}

/// Entry `number` of the relocations that begin at `table`.
#[inline(always)]
pub fn rela_numbered(bytes: &[u8], table: u64, number: u64) -> Rela
    requires { table + Rela.SIZE * number + Rela.SIZE ≤ length bytes.now }
    ensures { result ≡ rela_at (table + Rela.SIZE * number) bytes.now }
{
    match read_rela(bytes, table + Rela::SIZE * number) {
        Some(rela) => rela,
        None => unreachable!(),
    }
}

/// Writes the relocation entry at offset `at`, over the bytes that stand there.
pub fn write_rela(fields: &Rela, bytes: &mut [u8], at: u64)
    requires { at + Rela.SIZE ≤ length bytes.old }
    ensures bytes { bytes.new ≡ splice at (rela_bytes fields.now) bytes.old }
    ensures again { rela_at at bytes.new ≡ fields.now }
    ensures before { take at bytes.new ≡ take at bytes.old }
    ensures after { drop (at + Rela.SIZE) bytes.new ≡ drop (at + Rela.SIZE) bytes.old }
{
    let at = at as usize;
    put_u64(bytes, at, fields.offset);
    put_u64(bytes, at + 8, fields.info);
    put_i64(bytes, at + 16, fields.addend);
}
