//! A link fails only when memory runs out, at any point where it allocates, and a second try gives the same image, byte
//! for byte. Its objects are borrowed, so nothing can change them. A test that met such a failure says so in a line.

use crate::cases::{Unready, linked};
use elf_object::{Object, ObjectFault};
use elf_records::Rela;
use elf_records::relocation::{
    R_X86_64_GOTPC32_TLSDESC, R_X86_64_GOTTPOFF, R_X86_64_PLT32, R_X86_64_TLSGD,
};
use elf_records::symbol::{STT_FUNC, STT_NOTYPE, STT_TLS};
use link_core::Linked;
use link_faults::LinkFault;
use object_builder::{Section, Symbol, object_of, rela};
use std::alloc::{AllocError, Global};
use std::io::Print;
use std::process::Abort;
use std::test::Fail;
use std::thread::Threads;
use tls_symbols::{Exports, exports};

/// The address of `x` by the general dynamic sequence, the offset of `y` from the GOT, and the descriptor of `x`.
const CODE: &[u8] =
    b"\x66\x48\x8d\x3d\0\0\0\0\x66\x66\x48\xe8\0\0\0\0\x48\x8b\x05\0\0\0\0\x48\x8d\x05\0\0\0\0\xc3";

/// The fields of that code; symbols 2 to 4 are x, y and the run time's function.
fn fields() -> [Rela; 4] {
    [
        rela(4, R_X86_64_TLSGD, 2, -4),
        rela(12, R_X86_64_PLT32, 4, -4),
        rela(19, R_X86_64_GOTTPOFF, 3, -4),
        rela(26, R_X86_64_GOTPC32_TLSDESC, 2, -4),
    ]
}

/// An object with that code, a function `f`, and its own variable x.
fn asking(alloc: Global) -> Result<Vec<u8>, AllocError> {
    let fields = fields();
    let sections = [
        Section::code(CODE).with(&fields),
        Section::variables(b"\x2a\0\0\0"),
    ];
    let symbols = [
        Symbol::global(b"f", STT_FUNC, 1, 0, 31),
        Symbol::global(b"x", STT_TLS, 3, 0, 4),
        Symbol::global(b"y", STT_NOTYPE, 0, 0, 0),
        Symbol::global(b"__tls_get_addr", STT_NOTYPE, 0, 0, 0),
    ];
    object_of(alloc, &sections, &symbols)
}

/// An object of an image that is loaded with it, which has y.
fn beside(alloc: Global) -> Result<Vec<u8>, AllocError> {
    let sections = [Section::variables(b"\x07\0\0\0")];
    let symbols = [Symbol::global(b"y", STT_TLS, 1, 0, 4)];
    object_of(alloc, &sections, &symbols)
}

/// The object of these bytes.
fn read<'a>(rt: &impl Abort, alloc: Global, bytes: &'a [u8]) -> Result<Object<'a>, AllocError> {
    match Object::read(alloc, bytes) {
        Ok(object) => Ok(object),
        Err(fault) => {
            assert!(rt; matches!(fault, ObjectFault::OutOfMemory), "{fault}");
            Err(AllocError)
        }
    }
}

/// The image of objects; none if memory ran out.
fn link_once<'a>(
    rt: &(impl Abort + Threads + Sync),
    alloc: Global,
    kind: &str,
    objects: &[Object<'a>],
    startup: &[Exports<'a>; 1],
) -> Result<Option<Linked>, AllocError> {
    match linked(rt, alloc, kind, objects, startup) {
        Ok(Ok(linked)) => Ok(Some(linked)),
        Ok(Err(fault)) => {
            assert!(rt; matches!(fault, LinkFault::OutOfMemory), "{fault}");
            Ok(None)
        }
        Err(unready) => {
            assert!(rt; matches!(unready, Unready::OutOfMemory), "{unready:?}");
            Err(AllocError)
        }
    }
}

/// Whether two images are equal, and the choices for their sequences too.
fn are_alike(one: Linked, other: Linked) -> bool {
    one.choices == other.choices && one.image.into_bytes() == other.image.into_bytes()
}

/// Links objects, and again if the first try fails, and compares the result with an earlier link.
fn link_twice<'a>(
    rt: &(impl Abort + Print + Threads + Sync),
    alloc: Global,
    kind: &str,
    objects: &[Object<'a>],
    startup: &[Exports<'a>; 1],
) -> Result<(), AllocError> {
    let want = link_once(rt, alloc, kind, objects, startup)?.ok_or(AllocError)?;
    let mut answer = link_once(rt, alloc, kind, objects, startup)?;
    if answer.is_none() {
        let _ = println!(rt; "refused: link, {kind}");
        answer = link_once(rt, alloc, kind, objects, startup)?;
    }
    match answer {
        Some(linked) => assert!(rt; are_alike(linked, want), "another image"),
        None => assert!(rt; false, "refused again"),
    }
    Ok(())
}

/// Links the object of these bytes as an image of this kind, with one of those images loaded with it.
fn link_bytes<'a>(
    rt: &(impl Abort + Print + Threads + Sync),
    alloc: Global,
    kind: &str,
    own: &'a [u8],
    module: &'a [u8],
) -> Result<(), AllocError> {
    let module = vec![in alloc; read(rt, alloc, module)?]?;
    let startup = [exports(alloc, module.as_slice())?];
    let objects = vec![in alloc; read(rt, alloc, own)?]?;
    link_twice(rt, alloc, kind, objects.as_slice(), &startup)
}

/// Links the object as an image of this kind.
fn link_as(
    rt: &(impl Abort + Print + Threads + Sync),
    alloc: Global,
    kind: &str,
) -> Result<(), AllocError> {
    let own = asking(alloc)?;
    let module = beside(alloc)?;
    link_bytes(rt, alloc, kind, &own, &module)
}

#[test]
fn refused_rewritten_link(rt: HostRuntime) -> Result<(), Fail> {
    let _ = link_as(&rt, rt.alloc(), "exe");
    Ok(())
}

#[test]
fn refused_kept_link(rt: HostRuntime) -> Result<(), Fail> {
    let _ = link_as(&rt, rt.alloc(), "late-kept");
    Ok(())
}
