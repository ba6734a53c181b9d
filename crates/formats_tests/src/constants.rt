//! The names of numbers of the file format, each next to its number (gABI; psABI). Definitions use the names, so a
//! proof would pass with a wrong number; here a wrong number fails the build.

use elf_records::dynamic::{
    DF_1_PIE, DF_STATIC_TLS, DT_FLAGS, DT_FLAGS_1, DT_HASH, DT_NULL, DT_RELA, DT_RELAENT,
    DT_RELASZ, DT_STRSZ, DT_STRTAB, DT_SYMENT, DT_SYMTAB,
};
use elf_records::file_header::{EM_X86_64, ET_DYN, ET_EXEC, ET_REL, EV_CURRENT};
use elf_records::program_header::{PF_R, PF_W, PF_X, PT_DYNAMIC, PT_GNU_RELRO, PT_LOAD, PT_TLS};
use elf_records::relocation::{
    R_X86_64_32, R_X86_64_32S, R_X86_64_64, R_X86_64_DTPMOD64, R_X86_64_DTPOFF32,
    R_X86_64_DTPOFF64, R_X86_64_GOTPC32_TLSDESC, R_X86_64_GOTPCREL, R_X86_64_GOTPCRELX,
    R_X86_64_GOTTPOFF, R_X86_64_JUMP_SLOT, R_X86_64_NONE, R_X86_64_PC32, R_X86_64_PLT32,
    R_X86_64_RELATIVE, R_X86_64_REX_GOTPCRELX, R_X86_64_TLSDESC, R_X86_64_TLSDESC_CALL,
    R_X86_64_TLSGD, R_X86_64_TLSLD, R_X86_64_TPOFF32, R_X86_64_TPOFF64,
};
use elf_records::section_header::{
    SHF_ALLOC, SHF_EXECINSTR, SHF_MERGE, SHF_STRINGS, SHF_TLS, SHF_WRITE, SHT_GROUP, SHT_NOBITS,
    SHT_NOTE, SHT_NULL, SHT_PROGBITS, SHT_REL, SHT_RELA, SHT_STRTAB, SHT_SYMTAB, SHT_SYMTAB_SHNDX,
    SHT_X86_64_UNWIND,
};
use elf_records::symbol::{
    SHN_ABS, SHN_COMMON, SHN_LORESERVE, SHN_UNDEF, SHN_XINDEX, STB_GLOBAL, STB_LOCAL, STB_WEAK,
    STT_COMMON, STT_FILE, STT_FUNC, STT_GNU_IFUNC, STT_NOTYPE, STT_OBJECT, STT_SECTION, STT_TLS,
    STV_DEFAULT, STV_HIDDEN, STV_INTERNAL, STV_PROTECTED,
};
use elf_records::{DynamicEntry, Header, Rela, SectionHeader, Segment, SymbolEntry};

// Numbers of files.
const _: () = prove!(ET_REL == 1);

const _: () = prove!(ET_EXEC == 2);

const _: () = prove!(ET_DYN == 3);

const _: () = prove!(EM_X86_64 == 62);

const _: () = prove!(EV_CURRENT == 1);

// Numbers of sections.
const _: () = prove!(SHT_NULL == 0);

const _: () = prove!(SHT_PROGBITS == 1);

const _: () = prove!(SHT_SYMTAB == 2);

const _: () = prove!(SHT_STRTAB == 3);

const _: () = prove!(SHT_RELA == 4);

const _: () = prove!(SHT_NOTE == 7);

const _: () = prove!(SHT_NOBITS == 8);

const _: () = prove!(SHT_REL == 9);

const _: () = prove!(SHT_GROUP == 17);

const _: () = prove!(SHT_SYMTAB_SHNDX == 18);

const _: () = prove!(SHT_X86_64_UNWIND == 0x7000_0001);

const _: () = prove!(SHF_WRITE == 0x1);

const _: () = prove!(SHF_ALLOC == 0x2);

const _: () = prove!(SHF_EXECINSTR == 0x4);

const _: () = prove!(SHF_MERGE == 0x10);

const _: () = prove!(SHF_STRINGS == 0x20);

const _: () = prove!(SHF_TLS == 0x400);

// Numbers of symbols.
const _: () = prove!(STB_LOCAL == 0);

const _: () = prove!(STB_GLOBAL == 1);

const _: () = prove!(STB_WEAK == 2);

const _: () = prove!(STT_NOTYPE == 0);

const _: () = prove!(STT_OBJECT == 1);

const _: () = prove!(STT_FUNC == 2);

const _: () = prove!(STT_SECTION == 3);

const _: () = prove!(STT_FILE == 4);

const _: () = prove!(STT_COMMON == 5);

const _: () = prove!(STT_TLS == 6);

const _: () = prove!(STT_GNU_IFUNC == 10);

const _: () = prove!(STV_DEFAULT == 0);

const _: () = prove!(STV_INTERNAL == 1);

const _: () = prove!(STV_HIDDEN == 2);

const _: () = prove!(STV_PROTECTED == 3);

const _: () = prove!(SHN_UNDEF == 0);

const _: () = prove!(SHN_LORESERVE == 0xff00);

const _: () = prove!(SHN_ABS == 0xfff1);

const _: () = prove!(SHN_COMMON == 0xfff2);

const _: () = prove!(SHN_XINDEX == 0xffff);

// Numbers of relocations.
const _: () = prove!(R_X86_64_NONE == 0);

const _: () = prove!(R_X86_64_64 == 1);

const _: () = prove!(R_X86_64_PC32 == 2);

const _: () = prove!(R_X86_64_PLT32 == 4);

const _: () = prove!(R_X86_64_JUMP_SLOT == 7);

const _: () = prove!(R_X86_64_RELATIVE == 8);

const _: () = prove!(R_X86_64_GOTPCREL == 9);

const _: () = prove!(R_X86_64_32 == 10);

const _: () = prove!(R_X86_64_32S == 11);

const _: () = prove!(R_X86_64_DTPMOD64 == 16);

const _: () = prove!(R_X86_64_DTPOFF64 == 17);

const _: () = prove!(R_X86_64_TPOFF64 == 18);

const _: () = prove!(R_X86_64_TLSGD == 19);

const _: () = prove!(R_X86_64_TLSLD == 20);

const _: () = prove!(R_X86_64_DTPOFF32 == 21);

const _: () = prove!(R_X86_64_GOTTPOFF == 22);

const _: () = prove!(R_X86_64_TPOFF32 == 23);

const _: () = prove!(R_X86_64_GOTPC32_TLSDESC == 34);

const _: () = prove!(R_X86_64_TLSDESC_CALL == 35);

const _: () = prove!(R_X86_64_TLSDESC == 36);

const _: () = prove!(R_X86_64_GOTPCRELX == 41);

const _: () = prove!(R_X86_64_REX_GOTPCRELX == 42);

// Numbers of segments.
const _: () = prove!(PT_LOAD == 1);

const _: () = prove!(PT_DYNAMIC == 2);

const _: () = prove!(PT_TLS == 7);

const _: () = prove!(PT_GNU_RELRO == 0x6474_e552);

const _: () = prove!(PF_X == 1);

const _: () = prove!(PF_W == 2);

const _: () = prove!(PF_R == 4);

// Numbers of dynamic entries.
const _: () = prove!(DT_NULL == 0);

const _: () = prove!(DT_HASH == 4);

const _: () = prove!(DT_STRTAB == 5);

const _: () = prove!(DT_SYMTAB == 6);

const _: () = prove!(DT_RELA == 7);

const _: () = prove!(DT_RELASZ == 8);

const _: () = prove!(DT_RELAENT == 9);

const _: () = prove!(DT_STRSZ == 10);

const _: () = prove!(DT_SYMENT == 11);

const _: () = prove!(DT_FLAGS == 30);

const _: () = prove!(DT_FLAGS_1 == 0x6fff_fffb);

const _: () = prove!(DF_STATIC_TLS == 0x10);

const _: () = prove!(DF_1_PIE == 0x0800_0000);

// Sizes of records.
const _: () = prove!(Header::SIZE == 64);

const _: () = prove!(SectionHeader::SIZE == 64);

const _: () = prove!(SymbolEntry::SIZE == 24);

const _: () = prove!(Rela::SIZE == 24);

const _: () = prove!(Segment::SIZE == 56);

const _: () = prove!(DynamicEntry::SIZE == 16);
