//! Links objects, and compares the results.

ghost use Rattle.std.specs.Prelude.{◌≡◌, ◌<◌, ℕ, [], IfOk, OnOk, length, map, slice_index_or};
ghost use Rattle.object_rules.specs.declared.fault.FaultKind.TheVariants.{Sequence, StrayCall};
ghost use Rattle.sequence_match.specs.Faults.{AreSites, Nowhere};
ghost use Rattle.tls_symbols.specs.Bindings.{object_at};

use crate::objects::object;
use elf_object::{Object, ObjectFault};
use image_text::push_shown;
use link_core::{Linked, link};
use link_faults::{ImageKind, LinkFault};
use sequence_match::{Site, sites};
use std::alloc::{AllocError, AllocFailed, Global};
use std::process::Abort;
use std::test::Fail;
use std::thread::Threads;
use tls_symbols::{Exports, exports};

/// The images that are loaded with each: y, w and errno.
const STARTUP: &str = "y=v0 w=v4 errno=v8 v:000000000000000000000000";

/// Why no link was tried.
#[derive(Debug, Drop)]
pub(crate) enum Unready {
    OutOfMemory,
    /// The sequences of an object have a fault.
    Sites(ObjectFault),
}

impl From<ObjectFault> for Unready {
    fn from(fault: ObjectFault) -> Unready {
        match fault {
            ObjectFault::OutOfMemory => Unready::OutOfMemory,
            _ => Unready::Sites(fault),
        }
    }
}

impl<T: Drop> From<AllocFailed<T>> for Unready {
    fn from(_failed: AllocFailed<T>) -> Unready {
        Unready::OutOfMemory
    }
}

/// The kind of image for a word, and whether its sequences may be rewritten.
fn kind_of(word: &str) -> (ImageKind, bool) {
    let kind = match word.trim_end_matches("-kept") {
        "exe" => ImageKind::Exe,
        "pie" => ImageKind::Pie,
        "start" => ImageKind::Start,
        _ => ImageKind::Late,
    };
    (kind, !word.ends_with("-kept"))
}

/// The objects, which are separated by a bar.
fn files_of(alloc: Global, objects: &str) -> Result<Vec<Vec<u8>>, Fail> {
    let mut files = Vec::new(alloc);
    for words in objects.split('|') {
        files.push(object(alloc, words)?)?;
    }
    Ok(files)
}

fn read<'a>(alloc: Global, files: &'a [Vec<u8>]) -> Result<Vec<Object<'a>>, Fail> {
    let mut objects = Vec::new(alloc);
    for file in files {
        objects.push(Object::read(alloc, file.as_slice())?)?;
    }
    Ok(objects)
}

/// The sequences of each object. None has a loose relocation or a stray call.
fn all_sites(alloc: Global, objects: &[Object]) -> Result<Vec<Vec<Site>>, Unready>
    ensures len { IfOk result (λ all. length all.items ≡ length objects.now) }
    ensures sites { IfOk result (λ all. (o : ℕ) → o < length objects.now
        → AreSites (object_at objects.now o) (slice_index_or (map (λ own. own.items) all.items) o [])) }
    ensures stray { OnOk result ((o : ℕ) → o < length objects.now
        → Nowhere Sequence (object_at objects.now o) × Nowhere StrayCall (object_at objects.now o)) }
{
    let mut all = Vec::new(alloc);
    for object in objects {
        let own = sites(alloc, object)?;
        all.push(own)?;
    }
    Ok(all)
}

/// Links objects; these images are loaded with them.
pub(crate) fn linked<'a>(
    rt: &(impl Threads + Sync),
    alloc: Global,
    kind: &str,
    objects: &[Object<'a>],
    startup: &[Exports<'a>; 1],
) -> Result<Result<Linked, LinkFault>, Unready> {
    let sites = all_sites(alloc, objects)?;
    let (kind, relax) = kind_of(kind);
    Ok(link(rt, alloc, objects, sites.as_slice(), kind, startup, relax))
}

/// Links the objects of files; a module of objects is loaded with them.
fn answer<'a>(
    rt: &(impl Threads + Sync),
    alloc: Global,
    kind: &str,
    files: &'a [Vec<u8>],
    module: &'a [Vec<u8>],
) -> Result<Result<Linked, LinkFault>, Fail> {
    let module = read(alloc, module)?;
    let startup = [exports(alloc, module.as_slice())?];
    let objects = read(alloc, files)?;
    Ok(linked(rt, alloc, kind, objects.as_slice(), &startup)?)
}

/// Appends an image as text, and the choices for the sequences of each object.
fn push_image(alloc: Global, text: &mut String, linked: &Linked) -> Result<(), AllocError> {
    let mut shown = Vec::new(alloc);
    push_shown(&linked.image, &mut shown)?;
    for byte in &shown {
        text.push(char::from(*byte))?;
    }
    text.push_str("choices")?;
    for own in &linked.choices {
        text.push_str(" /")?;
        for choice in own {
            write!(text, " {choice:?}")?;
        }
    }
    Ok(())
}

/// Appends the bytes of each part but the last as digits, followed by a semicolon.
fn push_bytes(alloc: Global, text: &mut String, linked: &Linked) -> Result<(), AllocError> {
    text.push_str(" # ")?;
    for next in 1..linked.image.part_count() {
        if let Some(part) = linked.image.part(next.saturating_sub(1)) {
            text.push_str(hex::encode(alloc, part.bytes)?.as_str())?;
            text.push(';')?;
        }
    }
    Ok(())
}

/// An image as text, with its bytes as digits.
fn text_of(alloc: Global, linked: &Linked) -> Result<String, AllocError> {
    let mut text = String::new(alloc);
    push_image(alloc, &mut text, linked)?;
    let mut text = text.replace(alloc, "0000000000", "")?;
    push_bytes(alloc, &mut text, linked)?;
    squeezed(alloc, text.as_str())
}

/// The result of a link as text.
fn told(
    rt: &(impl Threads + Sync),
    alloc: Global,
    kind: &str,
    objects: &str,
) -> Result<String, Fail> {
    let files = files_of(alloc, objects)?;
    let module = files_of(alloc, STARTUP)?;
    match answer(rt, alloc, kind, files.as_slice(), module.as_slice())? {
        Ok(linked) => Ok(text_of(alloc, &linked)?),
        Err(fault) => Ok(format!(in alloc; "{fault}")?),
    }
}

/// The words of a text with single spaces between them, without lines of comments.
fn squeezed(alloc: Global, text: &str) -> Result<String, AllocError> {
    let mut squeezed = String::new(alloc);
    for line in text.lines() {
        if !line.starts_with("//") {
            for word in line.split_whitespace() {
                squeezed.push_str(word)?;
                squeezed.push(' ')?;
            }
        }
    }
    squeezed.pop();
    Ok(squeezed)
}

/// Whether the result of a link is this text and, if there are any, these digits.
fn holds(told: &str, text: &str, digits: &str) -> bool {
    let (shown, held) = told.split_once(" # ").unwrap_or((told, ""));
    let links = text == "links" && shown.starts_with("kind");
    (digits.is_empty() || held == digits) && (links || shown == text)
}

/// Compares the result for each kind of image. Among bytes a dash stands for eight zeros.
fn check(rt: &(impl Abort + Threads + Sync), alloc: Global, case: &str) -> Result<(), Fail> {
    let (given, want) = case.split_once(" -> ").ok_or("an answer")?;
    let (kinds, objects) = given.split_once(' ').ok_or("objects")?;
    let (text, digits) = want.split_once(" # ").unwrap_or((want, ""));
    let digits = digits.replace(alloc, " ", "")?;
    let digits = digits.replace(alloc, "-", "0000000000000000")?;
    for kind in kinds.split('/') {
        let told = told(rt, alloc, kind, objects)?;
        let holds = holds(told.as_str(), text, digits.as_str());
        assert!(rt; holds, "{told}: {case}");
    }
    Ok(())
}

/// Compares the result of each case. A star begins a case.
pub(crate) fn check_all(
    rt: &(impl Abort + Threads + Sync),
    alloc: Global,
    cases: &str,
) -> Result<(), Fail> {
    for case in cases.split('*') {
        let case = squeezed(alloc, case)?;
        if !case.is_empty() {
            check(rt, alloc, case.as_str())?;
        }
    }
    Ok(())
}
