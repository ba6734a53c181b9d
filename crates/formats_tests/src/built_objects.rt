//! A built object has the sections and symbols that were given.

use elf_records::relocation::R_X86_64_TPOFF32;
use elf_records::section_header::{SHT_RELA, SHT_STRTAB, SHT_SYMTAB};
use elf_records::symbol::{STT_FUNC, STT_TLS};
use elf_records::{Header, SectionHeader, read_header, read_rela, read_section, read_symbol};
use object_builder::{Section, Symbol, draft_of, object_of, rela};
use std::alloc::{AllocError, Global};
use std::test::Fail;

/// Where the contents of sections begin: after the headers of the file and of eight sections.
const CONTENTS: u64 = Header::SIZE + 8 * SectionHeader::SIZE;

/// The length of the object below: headers, 13 bytes of contents, one relocation, three symbols, and the names.
const LENGTH: usize = 576 + 13 + 24 + 72 + 5 + 52;

/// An object of a function and of two thread-local variables, one of which has no bytes.
fn example(alloc: Global) -> Result<Vec<u8>, AllocError> {
    let relocations = [rela(4, R_X86_64_TPOFF32, 2, 0)];
    let sections = [
        Section::code(b"\x64\x8b\x04\x25\0\0\0\0\xc3").with(&relocations),
        Section::variables(b"\x2a\0\0\0"),
        Section::zero_variables(8),
    ];
    let symbols = [
        Symbol::global(b"f", STT_FUNC, 1, 0, 9),
        Symbol::global(b"x", STT_TLS, 3, 0, 4),
    ];
    object_of(alloc, &sections, &symbols)
}

/// The kind of a section; a large number if there is no such section.
fn kind_of(bytes: &[u8], number: u64) -> u32 {
    match read_section(bytes, 64 + 64 * (number % 8)) {
        Some(section) => section.kind,
        None => u32::MAX,
    }
}

/// How many sections a file has, and which one holds their names.
fn counts_of(bytes: &[u8]) -> Option<(u16, u16)> {
    let header = read_header(bytes, 0)?;
    Some((header.e_shnum, header.e_shstrndx))
}

#[test]
fn builds_the_headers(rt: HostRuntime) -> Result<(), Fail> {
    let bytes = example(rt.alloc())?;
    assert!(rt; bytes.len() == LENGTH && counts_of(&bytes) == Some((8, 7)));
    let kinds = [0, 1, SHT_RELA, 1, 8, SHT_SYMTAB, SHT_STRTAB, SHT_STRTAB];
    for (number, kind) in kinds.iter().enumerate() {
        assert!(rt; kind_of(&bytes, number as u64) == *kind);
    }
    Ok(())
}

/// Where a symbol is, and how large it is.
fn extent_of(bytes: &[u8], at: u64) -> Option<(u16, u64)> {
    let symbol = read_symbol(bytes, at)?;
    Some((symbol.shndx, symbol.size))
}

#[test]
fn builds_the_tables(rt: HostRuntime) -> Result<(), Fail> {
    let bytes = example(rt.alloc())?;
    let relocation = rela(4, R_X86_64_TPOFF32, 2, 0);
    assert!(rt; read_rela(&bytes, CONTENTS + 13) == Some(relocation));
    assert!(rt; extent_of(&bytes, CONTENTS + 13 + 24 + 48) == Some((3, 4)));
    Ok(())
}

/// The header of a file of constants, after that type is changed in the draft.
fn changed_type(alloc: Global) -> Result<Option<Header>, AllocError> {
    let mut draft = draft_of(alloc, &[Section::constants(b"abcd")], &[])?;
    draft.header.e_type = 3;
    Ok(read_header(&draft.bytes(alloc)?, 0))
}

#[test]
fn writes_a_changed_field(rt: HostRuntime) -> Result<(), Fail> {
    let header = changed_type(rt.alloc())?.ok_or("there is a header")?;
    assert!(rt; header.e_type == 3);
    Ok(())
}
