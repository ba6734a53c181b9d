//! Each reader once, on bytes from outside: those of an object that defines `_Thread_local int x` and calls
//! `__tls_get_addr` for it, and for the last two records those of a C library (Debian's glibc 2.36). The fields
//! expected are the ones that `readelf -h -S -s -r -l -d` of GNU Binutils 2.40 prints for these files.

use elf_records::dynamic::{DF_STATIC_TLS, DT_FLAGS};
use elf_records::file_header::{ELF_IDENT, EM_X86_64, ET_REL, EV_CURRENT};
use elf_records::program_header::{PF_R, PT_TLS};
use elf_records::relocation::R_X86_64_TLSGD;
use elf_records::section_header::{SHF_ALLOC, SHF_TLS, SHF_WRITE, SHT_PROGBITS};
use elf_records::symbol::{STB_GLOBAL, STT_TLS, STV_DEFAULT};
use elf_records::{
    DynamicEntry, Header, Rela, SectionHeader, Segment, SymbolEntry, read_dynamic, read_header,
    read_rela, read_section, read_segment, read_symbol,
};

const HEADER: [u8; 64] = *b"\
    \x7f\x45\x4c\x46\x02\x01\x01\0\0\0\0\0\0\0\0\0\
    \x01\0\x3e\0\x01\0\0\0\0\0\0\0\0\0\0\0\
    \0\0\0\0\0\0\0\0\x40\0\0\0\0\0\0\0\
    \0\0\0\0\x40\0\0\0\0\0\x40\0\x08\0\x07\0";

const TDATA: [u8; 64] = *b"\
    \x12\0\0\0\x01\0\0\0\x03\x04\0\0\0\0\0\0\
    \0\0\0\0\0\0\0\0\x51\x02\0\0\0\0\0\0\
    \x14\0\0\0\0\0\0\0\0\0\0\0\0\0\0\0\
    \x08\0\0\0\0\0\0\0\0\0\0\0\0\0\0\0";

const SYMBOL_X: [u8; 24] = *b"\
    \x03\0\0\0\x16\0\x03\0\x08\0\0\0\0\0\0\0\
    \x04\0\0\0\0\0\0\0";

const TLSGD: [u8; 24] = *b"\
    \x04\0\0\0\0\0\0\0\x13\0\0\0\x02\0\0\0\
    \xfc\xff\xff\xff\xff\xff\xff\xff";

const TLS_SEGMENT: [u8; 56] = *b"\
    \x07\0\0\0\x04\0\0\0\xd0\xf8\x1c\0\0\0\0\0\
    \xd0\xf8\x1c\0\0\0\0\0\xd0\xf8\x1c\0\0\0\0\0\
    \x10\0\0\0\0\0\0\0\x90\0\0\0\0\0\0\0\
    \x08\0\0\0\0\0\0\0";

const FLAGS: [u8; 16] = *b"\
    \x1e\0\0\0\0\0\0\0\x10\0\0\0\0\0\0\0";

#[test]
fn reads_a_header(rt: HostRuntime) {
    let mut ident = [0; 16];
    ident[..7].copy_from_slice(&ELF_IDENT);
    let expected = Header {
        ident,
        e_type: ET_REL,
        e_machine: EM_X86_64,
        e_version: EV_CURRENT,
        e_entry: 0,
        e_phoff: 0,
        e_shoff: 64,
        e_flags: 0,
        e_ehsize: 64,
        e_phentsize: 0,
        e_phnum: 0,
        e_shentsize: 64,
        e_shnum: 8,
        e_shstrndx: 7,
    };
    assert!(rt; read_header(&HEADER, 0) == Some(expected));
}

#[test]
fn reads_a_section_header(rt: HostRuntime) {
    // [ 3] .tdata  PROGBITS  0000000000000000 000251 000014 00 WAT  0   0  8
    let expected = SectionHeader {
        name: 18,
        kind: SHT_PROGBITS,
        flags: SHF_WRITE | SHF_ALLOC | SHF_TLS,
        addr: 0,
        offset: 0x251,
        size: 0x14,
        link: 0,
        info: 0,
        addralign: 8,
        entsize: 0,
    };
    assert!(rt; read_section(&TDATA, 0) == Some(expected));
}

#[test]
fn reads_a_symbol(rt: HostRuntime) {
    // 2: 0000000000000008     4 TLS     GLOBAL DEFAULT    3 x
    let expected = SymbolEntry {
        name: 3,
        info: SymbolEntry::info_of(STB_GLOBAL, STT_TLS),
        other: STV_DEFAULT,
        shndx: 3,
        value: 8,
        size: 4,
    };
    assert!(rt; read_symbol(&SYMBOL_X, 0) == Some(expected));
    let parts = [expected.binding(), expected.kind(), expected.visibility()];
    assert!(rt; parts == [STB_GLOBAL, STT_TLS, STV_DEFAULT]);
}

#[test]
fn reads_a_relocation(rt: HostRuntime) {
    // 0000000000000004  0000000200000013 R_X86_64_TLSGD  0000000000000008 x - 4
    let expected = Rela {
        offset: 4,
        info: 0x2_0000_0013,
        addend: -4,
    };
    assert!(rt; read_rela(&TLSGD, 0) == Some(expected));
    assert!(rt; [expected.symbol(), expected.kind()] == [2, R_X86_64_TLSGD]);
}

#[test]
fn reads_a_program_header(rt: HostRuntime) {
    // TLS  0x1cf8d0 0x00000000001cf8d0 0x00000000001cf8d0 0x000010 0x000090 R  0x8
    let expected = Segment {
        kind: PT_TLS,
        flags: PF_R,
        offset: 0x1cf8d0,
        vaddr: 0x1cf8d0,
        paddr: 0x1cf8d0,
        filesz: 0x10,
        memsz: 0x90,
        align: 8,
    };
    assert!(rt; read_segment(&TLS_SEGMENT, 0) == Some(expected));
}

#[test]
fn reads_a_dynamic_entry(rt: HostRuntime) {
    // 0x000000000000001e (FLAGS)  STATIC_TLS
    let expected = DynamicEntry {
        tag: DT_FLAGS,
        value: DF_STATIC_TLS,
    };
    assert!(rt; read_dynamic(&FLAGS, 0) == Some(expected));
}
