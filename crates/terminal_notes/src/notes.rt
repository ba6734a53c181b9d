//! The lines for a person at a terminal.
ghost use Rattle.std.specs.Prelude.{◌≡◌, ◌++◌, OnOk, IfOk, IfSome, string_bytes};
ghost use Rattle.ports.specs.Files.{IsFile};
ghost use Rattle.terminal_notes.specs.Notes.{commands_note, file_note, object_note, place_note, symbol_words, IsNote};

use crate::names::{section_name, symbol_name};
use crate::printable::append_printable;
use crate::refusals::{ObjectRefusal, object_refusal};
use ports::{Aftermath, HostFault};
use std::alloc::{AllocError, Global};

/// The commands, for who gave words that are none.
pub const COMMANDS: &[u8] =
    b"tlsld: commands: run JOB, race JOB, link JOB IMAGE OUT, sites JOB IMAGE, show FILE, \
    check JOB, gen N; run, race and link take --no-relax\n";

/// A file, and why the host failed to read or write it.
pub fn file_note(alloc: Global, name: &[u8], reason: &[u8]) -> Result<Vec<u8>, AllocError>
    ensures { IfOk result (λ note. note.items ≡ file_note name.now reason.now) }
{
    let mut note = Vec::from_slice(alloc, b"tlsld: ")?;
    append_printable(&mut note, name)?;
    note.extend_from_slice(b": ")?;
    note.extend_from_slice(reason)?;
    note.extend_from_slice(b"\n")?;
    Ok(note)
}

fn append_symbol(into: &mut Vec<u8>, symbol: &[u8]) -> Result<(), AllocError>
    ensures { OnOk result (into.new.items ≡ into.old.items ++ symbol_words symbol.now) }
{
    if symbol.is_empty() {
        return Ok(());
    }
    into.extend_from_slice(b", symbol ")?;
    append_printable(into, symbol)
}

#[tactic(auto, unfolding(crate::specs::Notes::place_note))]
fn place_note(
    alloc: Global,
    name: &[u8],
    section: &[u8],
    symbol: &[u8],
) -> Result<Vec<u8>, AllocError>
    ensures { IfOk result (λ note. note.items ≡ place_note name.now section.now symbol.now) }
{
    let mut note = Vec::from_slice(alloc, b"tlsld: ")?;
    append_printable(&mut note, name)?;
    note.extend_from_slice(b": section ")?;
    append_printable(&mut note, section)?;
    append_symbol(&mut note, symbol)?;
    note.extend_from_slice(b"\n")?;
    Ok(note)
}

/// A refused object, and the names of the section and of the symbol at its fault. `None` if the section has no name, or
/// if memory runs out.
pub fn object_note(alloc: Global, refusal: &ObjectRefusal, object: &[u8]) -> Option<Vec<u8>>
    ensures { IfSome result (λ note. note.items ≡ object_note (string_bytes refusal.now.name) object.now
        refusal.now.section refusal.now.entry refusal.now.kind) }
{
    let section = section_name(object, refusal.section);
    if section.is_empty() {
        return None;
    }
    let symbol = symbol_name(refusal.kind, object, refusal.section, refusal.entry);
    place_note(alloc, refusal.name.as_bytes(), section, symbol).ok()
}

/// The note of a fault of the host.
fn host_note(alloc: Global, fault: &HostFault) -> Option<Vec<u8>> {
    let reason = format!(in alloc; "{}", fault.error).ok()?;
    file_note(alloc, fault.name.as_bytes(), reason.as_bytes()).ok()
}

/// The note of the object that a line refuses. Its file is read once more.
fn refused_note<S: Aftermath>(alloc: Global, line: &[u8], store: &S) -> Option<Vec<u8>>
    ensures { IfSome result (λ note. IsNote (IsFile (S.files store.now)) line.now note.items) }
{
    let refusal = object_refusal(alloc, line)?;
    let object = store.read_again(alloc, refusal.name.as_str()).ok()?;
    object_note(alloc, &refusal, object.as_slice())
}

/// What a person at a terminal is told besides the line of a command that ended with this status: for 6 the names of
/// the section and of the symbol that the line gives by number, for 3 the file that failed, for 2 the commands.
pub fn note_of<S: Aftermath>(alloc: Global, status: u8, line: &[u8], store: &S) -> Option<Vec<u8>>
    ensures object { IfSome result (λ note. status ≡ 6
        → IsNote (IsFile (S.files store.now)) line.now note.items) }
    ensures usage { IfSome result (λ note. status ≡ 2 → note.items ≡ commands_note) }
{
    match status {
        2 => Vec::from_slice(alloc, COMMANDS).ok(),
        3 => host_note(alloc, store.last_fault()?),
        6 => refused_note(alloc, line, store),
        _ => None,
    }
}
