//! Refusals of an image of one object, by the image's kind and the size of its TLS segment.

ghost use Rattle.std.specs.Prelude.{◌≡◌};

use crate::images::{exports_of, files_of, images_of, read};
use elf_object::{Object, relocation_count};
use link_faults::ImageKind::{Exe, Late, Pie, Start};
use link_faults::{ImageKind, LinkFault};
use link_needs::{ask_kind, ask_tls, has_few_relocations};
use std::alloc::Global;
use std::test::Fail;
use tls_symbols::{Bindings, resolve};

/// Each line: the kind of the image, the size of its TLS segment, the result, and the object, whose symbols are a
/// variable, a function and a variable of the program. Its relocations are in section 3: 0 is NONE, 10 is 32, 11 is
/// 32S, 19 is TLSGD, 20 is TLSLD, 22 is GOTTPOFF, 23 is TPOFF32, and 34 is GOTPC32_TLSDESC.
const CASES: &str = "\
// an offset from the thread pointer, and addresses in 32 bits; the former is reported, though it comes later
late|8|LocalExecInModule at object Some(0) section 3 entry 2|v:x f:f u:y 0@0 11@2 23@1 10@2
pie|8|NarrowInModule at object Some(0) section 3 entry 1|v:x f:f u:y 0@0 11@2 23@1 10@2
exe|8|4 fit|v:x f:f u:y 0@0 11@2 23@1 10@2
// an image that needs a TLS segment of its own and has none; what the program exports needs none
start|0|NoTls at object Some(0) section 3 entry 3|v:x f:f u:y 19@3 22@3 34@3 22@1 34@1 20@1
exe|0|NoTls at object Some(0) section 3 entry 4|v:x f:f u:y 19@3 22@3 34@3 22@1 34@1 20@1
start|1|6 fit|v:x f:f u:y 19@3 22@3 34@3 22@1 34@1 20@1
pie|0|NoTls at object Some(0) section 3 entry 0|v:x f:f u:y 20@1
";

/// The kind of image for a word.
fn kind_of(word: &str) -> ImageKind {
    match word {
        "exe" => Exe,
        "pie" => Pie,
        "start" => Start,
        _ => Late,
    }
}

/// Makes both checks.
fn asked(
    objects: &[Object],
    bindings: &Bindings,
    kind: ImageKind,
    size: u64,
) -> Result<(), LinkFault>
    requires { bindings.now.objects ≡ objects.now }
{
    ask_kind(objects, kind)?;
    ask_tls(objects, bindings, kind, size)
}

/// The result for an image of these objects and bindings, with this kind and this size of its TLS segment.
fn told(
    alloc: Global,
    objects: &[Object],
    bindings: &Bindings,
    kind: ImageKind,
    size: u64,
) -> Result<String, Fail>
    requires { bindings.now.objects ≡ objects.now }
{
    match asked(objects, bindings, kind, size) {
        Ok(()) => Ok(format!(in alloc; "{} fit", relocation_count(objects))?),
        Err(fault) => Ok(format!(in alloc; "{fault}")?),
    }
}

/// The result for an image of this object, with this kind and this size of its TLS segment.
fn said(alloc: Global, words: &str, kind: ImageKind, size: u64) -> Result<String, Fail> {
    let files = files_of(alloc, words)?;
    let program = images_of(alloc, "|v:y")?;
    let objects = read(alloc, files.as_slice())?;
    let startup = exports_of(alloc, program.as_slice())?;
    let bindings = resolve(alloc, objects.as_slice(), startup.as_slice())?;
    told(alloc, objects.as_slice(), &bindings, kind, size)
}

/// Whether the result of a case is that of its line.
fn holds(alloc: Global, line: &str) -> Result<bool, Fail> {
    let (kind, rest) = line.split_once('|').ok_or("a kind")?;
    let (size, rest) = rest.split_once('|').ok_or("a size")?;
    let (want, words) = rest.split_once('|').ok_or("an answer")?;
    let found = said(alloc, words, kind_of(kind), size.parse()?)?;
    Ok(found.as_str() == want)
}

#[test]
fn refusals(rt: HostRuntime) -> Result<(), Fail> {
    for line in CASES.lines() {
        if !line.starts_with("//") {
            assert!(rt; holds(rt.alloc(), line)?, "{line}");
        }
    }
    assert!(rt; has_few_relocations(&[]));
    Ok(())
}
