//! Tests of what no clause says: that the definitions agree with the standard. Places are worked out by hand.

use crate::values::same;
use elf_object::Object;
use elf_records::section_header::{SHF_ALLOC, SHF_WRITE};
use link_faults::{ImageKind, LinkFault};
use object_builder::{Section, object_of};
use std::alloc::{AllocError, Global};
use std::process::Abort;
use std::test::Fail;
use tls_layout::{Placement, TlsSize, place, static_offsets};

/// Each line: the kind of the image; its sections, `/` between objects; after `=` the place of each, an address, `+`
/// and an offset in the TLS segment, or `-`. Then the TLS segment: its size and alignment, and where its initial
/// image begins and how many bytes that has; then where the room begins. A section is a letter, its size and its
/// alignment, in decimal: `x` code, `r` constants, `t` and `b` thread-local with bytes and without, `w` and `z` data
/// with bytes and without, `n` one that is not loaded. All other numbers are hexadecimal.
const CASES: &str = "\
// one object, as an assembler writes it: code on the first page, the initial image on the next one
exe x:9:16 t:4:4 b:0:1 = 400000 401000+0 +4 tls 4 4 401000 4 room 402000
exe x:17:16 t:20:8 b:0:1 = 400000 401000+0 +14 tls 14 8 401000 14 room 402000
exe x:33:16 t:20:8 b:0:1 = 400000 401000+0 +14 tls 14 8 401000 14 room 402000
exe x:17:16 t:0:1 b:0:1 = 400000 401000+0 +0 tls 0 1 401000 0 room 401000
start x:0:16 t:20:8 b:0:1 = 0 0+0 +14 tls 14 8 0 14 room 1000
pie x:17:16 t:20:8 b:0:1 = 0 1000+0 +14 tls 14 8 1000 14 room 2000
pie x:1:1 = 0 tls 0 1 1000 0 room 1000
late r:4096:1 r:1:1 = 0 1000 tls 0 1 2000 0 room 2000
// bytes before zeros: 3, then 8 + 9 = 17; 17 rounded to 64, + 5 = 69; 69 rounded to 4096, + 2
exe b:5:64 t:3:1 b:2:4096 t:9:8 = +40 400000+0 +1000 400008+8 tls 1002 1000 400000 11 room 401000
// the example of the crate's essay: 0x14 rounded to 8, + 1 = 0x19; 0x19 rounded to 16, + 5 = 0x25
exe x:17:16 t:20:8 b:5:16 / x:9:16 t:1:8 = 400000 401000+0 +20 400020 401018+18 tls 25 10 401000 19 room 402000
// objects in their order; data with bytes of all objects before data without
exe x:1:1 w:3:4 z:5:8 / x:1:16 n:9:8 z:1:1 w:2:1 = 400000 401000 401008 400010 - 40100d 401003 tls 0 1 401000 0 room 402000
exe t:1:1 b:1:1 / t:1:8 b:3:4 = 400000+0 +9 400008+8 +c tls f 8 400000 9 room 401000
// sections of no bytes move the end of their class, except for data, which is dropped
exe x:1:1 x:0:4096 r:1:1 r:0:4096 t:1:1 t:0:4096 b:0:4096 w:1:1 w:0:4096 z:0:4096 = 400000 401000 401000 402000 402000+0 403000+1000 +1000 403000 - - tls 1000 1000 402000 1000 room 404000
exe t:0:4096 b:0:64 = 400000+0 +0 tls 0 1 400000 0 room 400000
exe b:1:1 b:0:4096 = +0 +1000 tls 1000 1000 400000 0 room 400000
// an alignment of 0 counts as 1
pie x:1:0 x:1:0 b:3:0 = 0 1 +0 tls 3 1 1000 0 room 1000
// the limits
exe b:1048576:1 = +0 tls 100000 1 400000 0 room 400000
exe t:1:1 b:1048575:1 = 400000+0 +1 tls 100000 1 400000 1 room 401000
exe t:1:1 b:1048575:2 = TlsTooLarge None 0 0
exe b:1048576:1 / b:1:1 = TlsTooLarge None 0 0
late z:1048576:1 z:1048576:1 z:1048576:1 z:1048576:1 z:1048576:1 z:1048576:1 z:1048576:1 z:1048576:1 z:1048576:1 z:1048576:1 z:1048576:1 z:1048576:1 z:1048576:1 z:1048576:1 z:1048576:1 z:1044480:1 x:4096:1 = 1000 101000 201000 301000 401000 501000 601000 701000 801000 901000 a01000 b01000 c01000 d01000 e01000 f01000 0 tls 0 1 1000 0 room 1000000
late z:1048576:1 z:1048576:1 z:1048576:1 z:1048576:1 z:1048576:1 z:1048576:1 z:1048576:1 z:1048576:1 z:1048576:1 z:1048576:1 z:1048576:1 z:1048576:1 z:1048576:1 z:1048576:1 z:1048576:1 z:1044481:1 x:4096:1 = ImageTooLarge None 0 0
late z:1048576:1 z:1048576:1 z:1048576:1 z:1048576:1 z:1048576:1 z:1048576:1 z:1048576:1 z:1048576:1 z:1048576:1 z:1048576:1 z:1048576:1 z:1048576:1 z:1048576:1 z:1048576:1 z:1048576:1 z:1048576:1 w:1:1 = ImageTooLarge None 0 0
// the TLS segment is checked first
exe z:1048576:1 z:1048576:1 z:1048576:1 z:1048576:1 z:1048576:1 z:1048576:1 z:1048576:1 z:1048576:1 z:1048576:1 z:1048576:1 z:1048576:1 z:1048576:1 z:1048576:1 z:1048576:1 z:1048576:1 z:1048576:1 w:1:1 b:1048576:1 b:1:1 = TlsTooLarge None 0 0
";

/// The bytes of sections: each takes its first bytes from here.
const CONTENT: &[u8] = &[0; 4096];

/// The section for a letter, with `size` bytes.
fn section_of(letter: &str, size: usize) -> Result<Section<'static>, Fail> {
    let bytes = CONTENT.get(..size).unwrap_or(CONTENT);
    match letter {
        "x" => Ok(Section::code(bytes)),
        "r" => Ok(Section::constants(bytes)),
        "t" => Ok(Section::variables(bytes)),
        "b" => Ok(Section::zero_variables(size as u64)),
        "w" => Ok(Section::data(bytes)),
        "z" => Ok(Section::zeros(b".bss", SHF_ALLOC | SHF_WRITE, size as u64)),
        "n" => Ok(Section::of(b".comment", 0, bytes)),
        _ => Err(Fail::from("a letter of the list")),
    }
}

/// The file of an object with these sections.
fn file_of(alloc: Global, words: &str) -> Result<Vec<u8>, Fail> {
    let mut sections = Vec::new(alloc);
    for word in words.split_whitespace() {
        let (letter, numbers) = word.split_once(':').ok_or("a section has a size")?;
        let (size, alignment) = numbers.split_once(':').ok_or("a section has an alignment")?;
        let mut section = section_of(letter, size.parse()?)?;
        section.alignment = alignment.parse()?;
        sections.push(section)?;
    }
    Ok(object_of(alloc, &sections, &[])?)
}

/// The place of a section, as a case writes it.
fn push_place(
    alloc: Global,
    text: &mut String,
    placement: &Placement,
    object: usize,
    section: u32,
) -> Result<(), AllocError> {
    let address = placement.address(object, section);
    let offset = placement.tls_offset(object, section);
    if let Some(address) = address {
        text.push_str(format!(in alloc; "{address:x}")?.as_str())?;
    }
    if let Some(offset) = offset {
        text.push_str(format!(in alloc; "+{offset:x}")?.as_str())?;
    }
    if address.is_none() && offset.is_none() {
        text.push('-')?;
    }
    text.push(' ')
}

/// The result of placing, as a case writes it.
fn answer(alloc: Global, objects: &[Object], kind: ImageKind) -> Result<String, AllocError> {
    let placement = match place(alloc, objects, kind) {
        Ok(placement) => placement,
        Err(LinkFault::OutOfMemory) => return String::from_str(alloc, "out of memory"),
        Err(
            LinkFault::At {
                kind,
                object,
                section,
                entry,
            },
        ) => return format!(in alloc; "{kind} {object:?} {section} {entry}"),
    };
    let mut text = String::new(alloc);
    for (number, object) in objects.iter().enumerate() {
        // The last three sections are the symbols and the names.
        for section in 1..object.section_count().saturating_sub(3) {
            push_place(alloc, &mut text, &placement, number, section)?;
        }
    }
    let (size, alignment) = (placement.tls_size(), placement.tls_alignment());
    let (start, initial) = (placement.tls_image().start, placement.initial_size());
    let room = placement.room();
    text.push_str(format!(in alloc;
        "tls {size:x} {alignment:x} {start:x} {initial:x} room {room:x}"
    )?.as_str())?;
    Ok(text)
}

/// The kind of image for a line's first word, and the rest of the line.
fn kind_of(line: &str) -> Result<(ImageKind, &str), Fail> {
    let (word, rest) = line.split_once(' ').ok_or("a case has sections")?;
    match word {
        "exe" => Ok((ImageKind::Exe, rest)),
        "pie" => Ok((ImageKind::Pie, rest)),
        "start" => Ok((ImageKind::Start, rest)),
        "late" => Ok((ImageKind::Late, rest)),
        _ => Err(Fail::from("a kind of image")),
    }
}

/// The files of objects, which are separated by `/`.
fn files_of(alloc: Global, objects: &str) -> Result<Vec<Vec<u8>>, Fail> {
    let mut files = Vec::new(alloc);
    for words in objects.split('/') {
        files.push(file_of(alloc, words)?)?;
    }
    Ok(files)
}

/// The objects of files.
fn objects_of<'a>(alloc: Global, files: &'a [Vec<u8>]) -> Result<Vec<Object<'a>>, Fail> {
    let mut objects = Vec::new(alloc);
    for file in files {
        objects.push(Object::read(alloc, file)?)?;
    }
    Ok(objects)
}

/// The result of placing these sections.
fn placed(alloc: Global, kind: ImageKind, sections: &str) -> Result<String, Fail> {
    let files = files_of(alloc, sections)?;
    let objects = objects_of(alloc, files.as_slice())?;
    Ok(answer(alloc, objects.as_slice(), kind)?)
}

/// Checks one case.
fn check(rt: &impl Abort, alloc: Global, line: &str) -> Result<(), Fail> {
    let (kind, rest) = kind_of(line)?;
    let (sections, want) = rest.split_once(" = ").ok_or("a case has places")?;
    same(rt, placed(alloc, kind, sections)?.as_str(), want, line);
    Ok(())
}

#[test]
fn places_sections(rt: HostRuntime) -> Result<(), Fail> {
    for line in CASES.lines() {
        if !line.starts_with("//") {
            check(&rt, rt.alloc(), line)?;
        }
    }
    Ok(())
}

#[test]
fn offsets_of_startup_modules(rt: HostRuntime) -> Result<(), Fail> {
    // 0x14 rounded to 8; 0x18 + 0x30 = 0x48 rounded to 0x20; 0x60 + 1
    let sizes = [
        TlsSize {
            size: 0x14,
            alignment: 8,
        },
        TlsSize {
            size: 0x30,
            alignment: 0x20,
        },
        TlsSize {
            size: 1,
            alignment: 1,
        },
    ];
    let offsets = static_offsets(rt.alloc(), &sizes)?;
    assert!(rt; offsets.as_slice() == [0x18, 0x60, 0x61].as_slice());
    Ok(())
}
