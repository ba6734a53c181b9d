//! What a person at a terminal is told.
use elf_records::relocation::R_X86_64_TPOFF32;
use elf_records::symbol::{STT_FUNC, STT_TLS};
use object_builder::{Section, Symbol, object_of, rela};
use ports::{HostStore, MemorySink, Sink, fetch_each};
use std::alloc::{AllocError, Global};
use std::test::Fail;
use std::thread::Threads;
use terminal_notes::{COMMANDS, KeptSink, append_printable, note_of, object_note, object_refusal};

fn printed(alloc: Global, name: &[u8]) -> Result<String, Fail> {
    let mut text = Vec::new(alloc);
    append_printable(&mut text, name)?;
    Ok(String::from_utf8(text)?)
}

#[test]
fn a_name_shows_no_byte_that_moves_a_cursor(rt: HostRuntime) -> Result<(), Fail> {
    for (name, text) in [
        (b"x".as_slice(), "x"),
        (b"", ""),
        (b" a~b\\", " a~b\\"),
        (b"\x1f\x7f\n\0", "\\x1f\\x7f\\x0a\\x00"),
        (b"\xc3\xa9\x1b[2J\xff", "\\xc3\\xa9\\x1b[2J\\xff"),
    ] {
        assert!(rt; printed(rt.alloc(), name)?.as_str() == text);
    }
    for (length, printed_length) in [(79, 79), (80, 80), (81, 82), (4_096, 82)] {
        let name = vec![in rt.alloc(); b'a'; length]?;
        assert!(rt; printed(rt.alloc(), name.as_slice())?.len() == printed_length);
    }
    Ok(())
}

/// An object with a relocation of x, in section 2, and symbols in section 4.
fn object(alloc: Global) -> Result<Vec<u8>, AllocError> {
    let relocations = [rela(4, R_X86_64_TPOFF32, 2, 0)];
    let sections = [
        Section::code(b"\x64\x8b\x04\x25\0\0\0\0\xc3").with(&relocations),
        Section::variables(b"\x2a\0\0\0"),
    ];
    let symbols = [
        Symbol::global(b"f", STT_FUNC, 1, 0, 9),
        Symbol::global(b"x\x1b", STT_TLS, 3, 0, 4),
    ];
    object_of(alloc, &sections, &symbols)
}

fn noted(alloc: Global, line: &str) -> Result<String, Fail> {
    let Some(refusal) = object_refusal(alloc, line.as_bytes()) else {
        return Ok(String::from_str(alloc, "no refusal")?);
    };
    match object_note(alloc, &refusal, object(alloc)?.as_slice()) {
        Some(note) => Ok(String::from_utf8(note)?),
        None => Ok(String::from_str(alloc, "no note")?),
    }
}

#[test]
fn a_refused_object_is_shown_by_its_names(rt: HostRuntime) -> Result<(), Fail> {
    for (line, note) in [
        (
            "object b.o section 2 entry 0 RelocRange\n",
            "tlsld: b.o: section .rela, symbol x\\x1b\n",
        ),
        (
            "object b.o section 2 entry 0 RelocTarget\n",
            "tlsld: b.o: section .rela\n",
        ),
        (
            "object b.o section 2 entry 1 RelocRange\n",
            "tlsld: b.o: section .rela\n",
        ),
        (
            "object b.o section 4 entry 1 SymbolRange\n",
            "tlsld: b.o: section .symtab, symbol f\n",
        ),
        (
            "object b.o section 3 entry 0 SectionAlign\n",
            "tlsld: b.o: section .tdata\n",
        ),
        ("object b.o section 0 entry 0 NotElf\n", "no note"),
        ("object b.o section 99 entry 0 SectionAlign\n", "no note"),
        (
            "object b.o section 4294967295 entry 4294967295 SymbolName\n",
            "no note",
        ),
        (
            "object b.o section 4294967296 entry 0 SymbolName\n",
            "no refusal",
        ),
        ("object b.o section 2 entry 0 RelocRange", "no refusal"),
        ("object b.o section 02 entry 0 RelocRange\n", "no refusal"),
        ("object b.o section 2 entry 0 Undefined\n", "no refusal"),
        ("object  b.o section 2 entry 0 RelocRange\n", "no refusal"),
        ("link b.o section 2 entry 0 RelocRange\n", "no refusal"),
        ("", "no refusal"),
    ] {
        assert!(rt; noted(rt.alloc(), line)?.as_str() == note, "{line}");
    }
    Ok(())
}

/// What is told of a command that ended with this status, after this file was read.
fn told<R: Threads + Sync>(
    rt: &HostRuntime,
    threads: &R,
    status: u8,
    line: &str,
    name: &str,
) -> Result<String, Fail> {
    let alloc = rt.alloc();
    let mut store = HostStore::new(rt, alloc);
    let _ = fetch_each(threads, alloc, &mut store, &[name]);
    match note_of(alloc, status, line.as_bytes(), &store) {
        Some(note) => Ok(String::from_utf8(note)?),
        None => Ok(String::from_str(alloc, "no note")?),
    }
}

#[test]
fn a_status_has_its_note(rt: HostRuntime) -> Result<(), Fail> {
    assert!(rt; told(&rt, &rt, 2, "usage\n", "none")?.as_bytes() == COMMANDS);
    assert!(rt;
        told(&rt, &rt, 3, "store fault\n", "none")?.as_str()
            == "tlsld: none: No such file or directory (os error 2)\n"
    );
    assert!(rt; told(&rt, &rt, 3, "store fault\n", "/")?.as_str() == "tlsld: /: is a directory\n");
    assert!(rt; told(&rt, &rt, 3, "store fault\n", "/dev/null")?.as_str() == "no note");
    let line = "object none section 2 entry 0 RelocRange\n";
    for status in [0, 1, 4, 5, 6, 7, 8, 9] {
        assert!(rt; told(&rt, &rt, status, line, "none")?.as_str() == "no note");
    }
    Ok(())
}

#[test]
fn a_kept_sink_keeps_the_last_line(rt: HostRuntime) -> Result<(), Fail> {
    let mut sink = KeptSink::new(rt.alloc(), MemorySink::new(rt.alloc()));
    assert!(rt; sink.last() == b"".as_slice());
    sink.put(b"a line\n")?;
    sink.put(b"usage\n")?;
    assert!(rt; sink.last() == b"usage\n".as_slice());
    let long = vec![in rt.alloc(); b'a'; 4_097]?;
    sink.put(long.as_slice())?;
    assert!(rt; sink.last() == b"".as_slice());
    Ok(())
}
