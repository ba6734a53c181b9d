//! The types of relocation that a loader carries out.

ghost use Rattle.std.specs.Prelude.{◌≡◌};
ghost use Rattle.image_faults.specs.Relocations.{field_width, kind_number, loader_kind};

use elf_records::relocation::{
    R_X86_64_DTPMOD64, R_X86_64_DTPOFF64, R_X86_64_JUMP_SLOT, R_X86_64_RELATIVE, R_X86_64_TLSDESC,
    R_X86_64_TPOFF64,
};

/// A type of relocation that a loader carries out (psABI, "Relocation Types").
#[derive(Clone, Copy, PartialEq, Eq, Debug)]
pub enum LoaderKind {
    /// JUMP_SLOT: the address of a function of the run time.
    JumpSlot,
    /// RELATIVE: how far the image was moved, plus the addend.
    Relative,
    /// DTPMOD64: the number of a module with thread-local data.
    Module,
    /// DTPOFF64: a symbol's offset in its module's TLS segment.
    ModuleOffset,
    /// TPOFF64: a symbol's offset from the thread pointer.
    ThreadOffset,
    /// TLSDESC: a TLS descriptor, two words by which a function finds a symbol.
    Descriptor,
}

impl LoaderKind {
    /// The number of the type.
    pub fn number(self) -> u32
        ensures { result ≡ kind_number self }
    {
        match self {
            LoaderKind::JumpSlot => R_X86_64_JUMP_SLOT,
            LoaderKind::Relative => R_X86_64_RELATIVE,
            LoaderKind::Module => R_X86_64_DTPMOD64,
            LoaderKind::ModuleOffset => R_X86_64_DTPOFF64,
            LoaderKind::ThreadOffset => R_X86_64_TPOFF64,
            LoaderKind::Descriptor => R_X86_64_TLSDESC,
        }
    }

    /// The type with this number.
    pub fn numbered(number: u32) -> Option<LoaderKind>
        ensures { result ≡ loader_kind number }
    {
        match number {
            R_X86_64_JUMP_SLOT => Some(LoaderKind::JumpSlot),
            R_X86_64_RELATIVE => Some(LoaderKind::Relative),
            R_X86_64_DTPMOD64 => Some(LoaderKind::Module),
            R_X86_64_DTPOFF64 => Some(LoaderKind::ModuleOffset),
            R_X86_64_TPOFF64 => Some(LoaderKind::ThreadOffset),
            R_X86_64_TLSDESC => Some(LoaderKind::Descriptor),
            _ => None,
        }
    }
}

/// How many bytes a relocation of this type writes.
pub fn field_width(number: u32) -> u64
    ensures { result ≡ field_width number }
{
    if number == R_X86_64_TLSDESC { 16 } else { 8 }
}
