//! Tests that the definitions of faults agree with the standard. Each case changes some fields of one small object and
//! gives the answer that a reader of the gABI expects.

use elf_object::{FaultKind, Object, ObjectFault};
use elf_records::relocation::{R_X86_64_NONE, R_X86_64_TPOFF32};
use elf_records::symbol::{STT_FUNC, STT_TLS};
use object_builder::{Section, Symbol, object_of, rela};
use std::alloc::{AllocError, Global};
use std::process::Abort;
use std::test::Fail;

/// The code of the example: mov %fs:x@tpoff, %eax; ret
const CODE: &[u8] = b"\x64\x8b\x04\x25\0\0\0\0\xc3";

/// An object with a function and a thread-local variable, as an assembler writes it: sections 1 `.text`, 2 its
/// relocations, 3 `.tdata`, 4 `.tbss`, 5 `.symtab`, 6 `.strtab`, 7 `.shstrtab`; symbols 1 `f`, 2 `x`. Relocation 1 does
/// nothing.
pub(crate) fn example(alloc: Global) -> Result<Vec<u8>, AllocError> {
    let relocations = [
        rela(4, R_X86_64_TPOFF32, 2, 0),
        rela(4, R_X86_64_NONE, 0, 0),
    ];
    let sections = [
        Section::code(CODE).with(&relocations),
        Section::variables(b"\x2a\0\0\0"),
        Section::zero_variables(0),
    ];
    let symbols = [
        Symbol::global(b"f", STT_FUNC, 1, 0, 9),
        Symbol::global(b"x", STT_TLS, 3, 0, 4),
    ];
    object_of(alloc, &sections, &symbols)
}

/// Where each record of the example begins: the file's header; the headers of sections; after the contents of sections,
/// the relocations and the symbols; and the last byte of each table of names.
const RECORDS: &str = "\
h 0
0 64
1 128
2 192
3 256
4 320
5 384
6 448
7 512
r0 589
r1 613
y0 637
y1 661
y2 685
names 713
section_names 765
";

/// The gABI's fields: where each begins in its record, and how many bytes it has.
const FIELDS: &str = "\
e_ident0 0 1
e_ident4 4 1
e_ident5 5 1
e_ident6 6 1
e_ident7 7 1
e_type 16 2
e_machine 18 2
e_version 20 4
e_shoff 40 8
e_shentsize 58 2
e_shnum 60 2
e_shstrndx 62 2
sh_name 0 4
sh_type 4 4
sh_flags 8 8
sh_offset 24 8
sh_size 32 8
sh_link 40 4
sh_info 44 4
sh_addralign 48 8
sh_entsize 56 8
st_name 0 4
st_info 4 1
st_shndx 6 2
st_value 8 8
st_size 16 8
r_offset 0 8
r_type 8 4
r_sym 12 4
last 0 1
";

/// Each line: the answer, `ok` or a section, an entry and a kind; then changes RECORD.FIELD=NUMBER of the example. A
/// record is the file's header `h`, a section's number, a symbol such as `y1`, a relocation such as `r0`, or the names,
/// whose last byte can be changed.
const CASES: &str = "\
// the file as a whole
0 0 Truncated: h.e_shoff=18446744073709551615
1 0 Truncated: 1.sh_offset=18446744073709551615
7 0 Truncated: 7.sh_size=53
3 0 Truncated: 3.sh_offset=767 3.sh_size=0
ok: 4.sh_offset=18446744073709551615
ok: 0.sh_type=1 0.sh_offset=99999
0 0 NotElf: h.e_ident0=126
0 0 NotElf: h.e_ident4=1
0 0 NotElf: h.e_ident5=2
0 0 NotElf: h.e_ident6=0
0 0 NotElf: h.e_version=2
ok: h.e_ident7=3
0 0 NotRelocatable: h.e_type=2
0 0 NotRelocatable: h.e_machine=3
0 0 NotRelocatable: h.e_shentsize=63
0 0 NotRelocatable: h.e_shnum=0
0 0 NotRelocatable: h.e_shnum=65280
0 0 NotRelocatable: h.e_shstrndx=0
0 0 NotRelocatable: h.e_shstrndx=8
// sections
7 0 SectionName: 7.sh_type=1
3 0 SectionName: 3.sh_name=52
7 0 SectionName: section_names.last=65
ok: 3.sh_name=51
3 0 SectionKind: 3.sh_type=9
3 0 SectionKind: 3.sh_type=17
3 0 SectionKind: 3.sh_type=18
3 0 SectionKind: 3.sh_flags=1024
1 0 SectionKind: 1.sh_flags=7
1 0 SectionKind: 1.sh_type=8
1 0 SectionKind: 1.sh_flags=518
4 0 SectionKind: 4.sh_type=0
ok: 1.sh_flags=54
1 0 SectionAlign: 1.sh_addralign=3
1 0 SectionAlign: 1.sh_addralign=8192
4 0 SectionAlign: 4.sh_addralign=6
ok: 1.sh_addralign=4096 3.sh_addralign=0 7.sh_addralign=3
4 0 TooLarge: 4.sh_size=1048577
ok: 4.sh_size=1048576
// the symbol table
5 0 SymbolTable: 5.sh_entsize=25
5 0 SymbolTable: 5.sh_size=71
5 0 SymbolTable: 5.sh_link=1
5 0 SymbolTable: 5.sh_link=0
5 0 SymbolTable: 5.sh_info=4
3 0 SymbolTable: 3.sh_type=2 3.sh_flags=0
5 1 SymbolTable: y1.st_info=2
5 1 SymbolTable: 5.sh_info=2
5 0 SymbolTable: 2.sh_type=2 2.sh_offset=637 2.sh_size=72 2.sh_link=6
2 1 SymbolTable: 2.sh_type=2 2.sh_offset=637 2.sh_size=72 2.sh_link=6 y1.st_info=2
5 1 SymbolName: y1.st_name=5
5 1 SymbolName: y1.st_name=0
5 2 SymbolName: names.last=65
ok: y1.st_name=0 y1.st_info=2 5.sh_info=2
5 1 SymbolSection: y1.st_shndx=8
5 1 SymbolSection: y1.st_shndx=6
5 1 SymbolSection: y1.st_shndx=65521
5 1 SymbolSection: y1.st_shndx=65522
5 1 SymbolSection: y1.st_info=2 5.sh_info=2 y1.st_shndx=0
ok: y1.st_info=0 5.sh_info=2 y1.st_shndx=65521
ok: y1.st_info=3 5.sh_info=2 y1.st_shndx=7 y1.st_value=99999
5 2 SymbolRange: y2.st_value=1
5 2 SymbolRange: y2.st_value=1 y2.st_size=18446744073709551615
5 1 SymbolRange: y1.st_value=10 y1.st_size=0
ok: y1.st_value=9 y1.st_size=0
5 1 SymbolKind: y1.st_info=22
5 1 SymbolKind: y1.st_info=48
5 1 SymbolKind: y1.st_info=21
5 1 SymbolKind: y1.st_info=26
5 2 SymbolKind: y2.st_info=18
5 2 SymbolKind: y2.st_info=20
ok: y2.st_shndx=0
// relocations
2 0 RelocTarget: 2.sh_info=0
2 0 RelocTarget: 2.sh_info=8
2 0 RelocTarget: 2.sh_entsize=25
2 0 RelocTarget: 2.sh_size=23
2 0 RelocTarget: 2.sh_link=6
2 0 RelocTarget: 2.sh_info=4
2 0 RelocTarget: 5.sh_type=0
4 0 RelocTarget: 4.sh_type=4 4.sh_flags=0 4.sh_offset=589 4.sh_size=24 4.sh_link=5 4.sh_info=1 4.sh_entsize=24
4 0 RelocTarget: 4.sh_type=4 4.sh_flags=0 4.sh_offset=589 4.sh_size=0 4.sh_link=5 4.sh_info=1 4.sh_entsize=24 2.sh_size=0
ok: 2.sh_info=4 2.sh_size=0
ok: 2.sh_info=6 2.sh_entsize=1
2 0 RelocSymbol: r0.r_sym=0
2 0 RelocSymbol: r0.r_sym=3
2 0 RelocSymbol: y1.st_info=0 5.sh_info=2 y1.st_shndx=65521 r0.r_sym=1
2 0 RelocSymbol: y1.st_info=3 5.sh_info=2 y1.st_shndx=7 r0.r_sym=1
ok: r0.r_type=0 r0.r_sym=99
2 0 RelocKind: r0.r_type=24
2 0 RelocKind: r0.r_type=3
2 0 RelocKind: 2.sh_info=3 r0.r_offset=0 r0.r_type=4
ok: 2.sh_info=3 r0.r_offset=0 r0.r_type=2
2 0 RelocRange: r0.r_offset=6
2 0 RelocRange: r0.r_offset=18446744073709551614
2 0 RelocRange: 2.sh_info=3 r0.r_offset=0 r0.r_type=1
2 0 RelocRange: r0.r_offset=10 r0.r_type=0
ok: r0.r_offset=9 r0.r_type=0
2 1 RelocOverlap: r1.r_offset=5 r1.r_type=23 r1.r_sym=2
2 1 RelocOverlap: r1.r_offset=1 r1.r_type=23 r1.r_sym=2
ok: r1.r_offset=0 r1.r_type=23 r1.r_sym=2
ok: r1.r_offset=5 r1.r_type=0 r1.r_sym=2
// two faults at once: kinds in their order, then sections, then entries
0 0 NotElf: h.e_ident0=126 h.e_type=2
1 0 SectionAlign: 1.sh_addralign=3 5.sh_entsize=25
1 0 SectionAlign: 1.sh_addralign=3 3.sh_addralign=3
1 0 SectionKind: 1.sh_flags=7 3.sh_name=51 4.sh_addralign=6
5 1 SymbolName: y1.st_name=5 y2.st_name=5
5 2 SymbolName: y2.st_name=5 y1.st_shndx=8
5 1 SymbolName: y1.st_name=5 2.sh_info=0
2 0 RelocSymbol: r0.r_sym=0 r0.r_offset=6
2 0 RelocKind: r0.r_type=24 r0.r_offset=99
2 1 RelocRange: r1.r_offset=6 r1.r_type=23 r1.r_sym=2 r0.r_offset=5
";

/// The text after a name in a table.
fn behind(table: &'static str, name: &str) -> Option<&'static str> {
    for row in table.lines() {
        let (first, rest) = row.split_once(' ')?;
        if first == name {
            return Some(rest);
        }
    }
    None
}

/// A number in a table; a word that is not a number gives a large one.
fn number(word: &str) -> u64 {
    word.parse().unwrap_or(u64::MAX)
}

/// Writes a number at an offset, in `width` bytes, the lowest first.
fn put(bytes: &mut [u8], at: u64, width: u64, number: u64) -> Option<()> {
    let mut rest = number;
    for index in 0..width {
        *bytes.get_mut(at.checked_add(index)? as usize)? = (rest % 256) as u8;
        rest /= 256;
    }
    Some(())
}

/// Makes a change of the example; `None` if the word is not a change.
fn change(bytes: &mut [u8], word: &str) -> Option<()> {
    let (place, value) = word.split_once('=')?;
    let (record, field) = place.split_once('.')?;
    let (offset, width) = behind(FIELDS, field)?.split_once(' ')?;
    let at = number(behind(RECORDS, record)?).saturating_add(number(offset));
    put(bytes, at, number(width), number(value))
}

/// The example after these changes.
fn changed(alloc: Global, words: &str) -> Result<Vec<u8>, Fail> {
    let mut bytes = example(alloc)?;
    for word in words.split_whitespace() {
        change(bytes.as_mut_slice(), word).ok_or("a change of the example")?;
    }
    Ok(bytes)
}

/// The answer of reading, as a case writes it.
fn answer(alloc: Global, bytes: &[u8]) -> Result<String, AllocError> {
    match Object::read(alloc, bytes) {
        Ok(_) => String::from_str(alloc, "ok"),
        Err(ObjectFault::OutOfMemory) => String::from_str(alloc, "out of memory"),
        Err(
            ObjectFault::At {
                section,
                entry,
                kind,
            },
        ) => format!(in alloc; "{section} {entry} {kind}"),
    }
}

/// Compares an answer with the expected one.
pub(crate) fn same(rt: &impl Abort, found: &str, want: &str, line: &str) {
    assert!(rt; found == want, "{found} in {line}");
}

/// Compares the answer of one case.
fn check(rt: &impl Abort, alloc: Global, line: &str) -> Result<(), Fail> {
    let (want, words) = line.split_once(": ").ok_or("an answer")?;
    let bytes = changed(alloc, words)?;
    same(rt, answer(alloc, bytes.as_slice())?.as_str(), want, line);
    Ok(())
}

#[test]
fn finds_the_first_fault(rt: HostRuntime) -> Result<(), Fail> {
    for line in CASES.lines() {
        if !line.starts_with("//") {
            check(&rt, rt.alloc(), line)?;
        }
    }
    Ok(())
}

/// Whether a file is shorter than its headers say.
fn is_truncated(alloc: Global, bytes: &[u8]) -> bool {
    match Object::read(alloc, bytes) {
        Err(ObjectFault::At { kind, .. }) => kind == FaultKind::Truncated,
        _ => false,
    }
}

#[test]
fn every_shorter_file_is_truncated(rt: HostRuntime) -> Result<(), Fail> {
    let bytes = example(rt.alloc())?;
    for len in 0..bytes.len() {
        assert!(rt; is_truncated(rt.alloc(), &bytes[..len]), "{len} bytes");
    }
    Ok(())
}

/// A fault as it is printed.
fn printed(alloc: Global, fault: ObjectFault) -> Result<String, AllocError> {
    format!(in alloc; "{fault}")
}

#[test]
fn prints_a_fault(rt: HostRuntime) -> Result<(), Fail> {
    let fault = ObjectFault::At {
        section: 2,
        entry: 7,
        kind: FaultKind::RelocRange,
    };
    assert!(rt; printed(rt.alloc(), fault)?.as_str() == "section 2 entry 7 RelocRange");
    assert!(rt; printed(rt.alloc(), AllocError.into())?.as_str() == "out of memory");
    Ok(())
}

/// What no listing of an object prints (`object_listing` prints the rest): the section that programs write, the section
/// of symbols, the section of relocations for section 1, and the section that section 2 relocates.
fn lent(alloc: Global, bytes: &[u8]) -> Result<String, Fail> {
    let object = Object::read(alloc, bytes)?;
    let (writable, symbols) = (object.writable(), object.symbol_table());
    let (table, target) = (object.relocation_table(1), object.relocation_target(2));
    Ok(format!(in alloc; "{writable:?} {symbols:?} {table:?} {target:?}")?)
}

/// Whether section 1 has the example's code.
fn lends_code(alloc: Global, bytes: &[u8]) -> Result<bool, Fail> {
    match Object::read(alloc, bytes)?.section(1) {
        Some(section) => Ok(section.bytes == CODE),
        None => Ok(false),
    }
}

/// Whether the name of symbol 2 has at most `limit` bytes.
fn lends_short_name(alloc: Global, bytes: &[u8], limit: usize) -> Result<bool, Fail> {
    let object = Object::read(alloc, bytes)?;
    Ok(object.symbol_count() == 3 && object.short_symbol_name(2, limit).is_some())
}

#[test]
fn lends_what_no_listing_prints(rt: HostRuntime) -> Result<(), Fail> {
    // .tdata loses SHF_TLS, x is an OBJECT, and its relocation needs no thread-local storage
    let bytes = changed(rt.alloc(), "3.sh_flags=3 y2.st_info=17 r0.r_type=2")?;
    assert!(rt; lent(rt.alloc(), &bytes)?.as_str() == "Some(3) Some(5) Some(2) Some(1)");
    assert!(rt; lends_code(rt.alloc(), &bytes)?);
    assert!(rt; lends_short_name(rt.alloc(), &bytes, 1)?);
    assert!(rt; !lends_short_name(rt.alloc(), &bytes, 0)?);
    Ok(())
}
