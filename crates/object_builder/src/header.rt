//! The file header of an object.

ghost use Rattle.std.specs.Prelude.{◌≡◌};
ghost use Rattle.object_builder.specs.Headers.{object_header};

use elf_records::file_header::{EM_X86_64, ET_REL, EV_CURRENT};
use elf_records::{Header, SectionHeader};

/// The file header of an object with `sections` sections, number 0 included.
pub fn object_header(sections: u16) -> Header
    ensures { result ≡ object_header sections }
{
    Header {
        ident: *b"\x7fELF\x02\x01\x01\0\0\0\0\0\0\0\0\0",
        e_type: ET_REL,
        e_machine: EM_X86_64,
        e_version: EV_CURRENT,
        e_entry: 0,
        e_phoff: 0,
        e_shoff: Header::SIZE,
        e_flags: 0,
        e_ehsize: Header::SIZE as u16,
        e_phentsize: 0,
        e_phnum: 0,
        e_shentsize: SectionHeader::SIZE as u16,
        e_shnum: sections,
        e_shstrndx: sections.saturating_sub(1),
    }
}
