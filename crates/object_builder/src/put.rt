//! Appends records to a file's bytes.

ghost use Rattle.std.specs.Prelude.{◌≡◌, ◌++◌, OnOk};
ghost use Rattle.std.specs.List.{flat_map};
ghost use Rattle.elf_records.specs.Records.{header_bytes, section_bytes, symbol_bytes, rela_bytes};

use elf_records::{
    Header, Rela, SectionHeader, SymbolEntry, write_header, write_rela, write_section, write_symbol,
};
use std::alloc::AllocError;

const HEADER_SIZE: usize = Header::SIZE as usize;

const SECTION_SIZE: usize = SectionHeader::SIZE as usize;

const SYMBOL_SIZE: usize = SymbolEntry::SIZE as usize;

const RELA_SIZE: usize = Rela::SIZE as usize;

/// Appends the header of a file.
pub fn put_header(bytes: &mut Vec<u8>, header: &Header) -> Result<(), AllocError>
    ensures { OnOk result (bytes.new.items ≡ bytes.old.items ++ header_bytes header.now) }
{
    let mut record = [0; HEADER_SIZE];
    write_header(header, &mut record, 0);
    bytes.extend_from_slice(&record)
}

/// Appends the headers of sections, in their order.
pub fn put_sections(bytes: &mut Vec<u8>, sections: &[SectionHeader]) -> Result<(), AllocError>
    ensures { OnOk result (bytes.new.items ≡ bytes.old.items ++ flat_map section_bytes sections.now) }
{
    for section in sections {
        let mut record = [0; SECTION_SIZE];
        write_section(section, &mut record, 0);
        bytes.extend_from_slice(&record)?;
    }
    Ok(())
}

/// Appends symbols, in their order.
pub fn put_symbols(bytes: &mut Vec<u8>, symbols: &[SymbolEntry]) -> Result<(), AllocError>
    ensures { OnOk result (bytes.new.items ≡ bytes.old.items ++ flat_map symbol_bytes symbols.now) }
{
    for symbol in symbols {
        let mut record = [0; SYMBOL_SIZE];
        write_symbol(symbol, &mut record, 0);
        bytes.extend_from_slice(&record)?;
    }
    Ok(())
}

/// Appends relocations, in their order.
pub fn put_relocations(bytes: &mut Vec<u8>, relocations: &[Rela]) -> Result<(), AllocError>
    ensures { OnOk result (bytes.new.items ≡ bytes.old.items ++ flat_map rela_bytes relocations.now) }
{
    for relocation in relocations {
        let mut record = [0; RELA_SIZE];
        write_rela(relocation, &mut record, 0);
        bytes.extend_from_slice(&record)?;
    }
    Ok(())
}
