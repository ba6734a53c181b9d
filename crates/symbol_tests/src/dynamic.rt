//! The dynamic symbols of images, and their order.

use crate::dynamic_images::{local, object, said, undefined, variable, weak};
use elf_records::relocation::{R_X86_64_GOTTPOFF, R_X86_64_TLSDESC_CALL};
use object_builder::rela;
use std::test::Fail;

/// The images loaded with it export y, v, errno and w.
#[test]
fn small_images(rt: HostRuntime) -> Result<(), Fail> {
    let alloc = rt.alloc();
    let module = [
        variable(b"y"),
        variable(b"v"),
        variable(b"errno"),
        variable(b"w"),
    ];
    let startup = vec![in alloc; vec![in alloc; object(alloc, &module, b"", &[])?]?]?;
    // A WEAK and a GLOBAL definition: the place of the WEAK one, the symbol of the GLOBAL one. LOCAL and undefined
    // symbols are not there. Of two WEAK ones the first.
    let first = [
        local(b"l"),
        weak(variable(b"w")),
        weak(variable(b"x")),
        undefined(b"y"),
    ];
    let second = [variable(b"z"), weak(variable(b"x")), variable(b"w")];
    let files = vec![in alloc;
        object(alloc, &first, b"", &[])?,
        object(alloc, &second, b"", &[])?,
    ]?;
    assert_eq!(rt; said(alloc, &files, &startup)?.as_str(), "1.3 0.3 1.1 / 78");
    // The relocations are in another order than the sites: y, w, v only by a descriptor's call, errno. The second
    // object uses errno and y again. w is defined here.
    let uses = [
        undefined(b"errno"),
        undefined(b"v"),
        undefined(b"y"),
        variable(b"w"),
    ];
    let one = [
        rela(19, R_X86_64_GOTTPOFF, 1, -4),
        rela(14, R_X86_64_TLSDESC_CALL, 2, 0),
        rela(10, R_X86_64_GOTTPOFF, 4, -4),
        rela(3, R_X86_64_GOTTPOFF, 3, -4),
    ];
    let again = [
        rela(3, R_X86_64_GOTTPOFF, 1, -4),
        rela(10, R_X86_64_GOTTPOFF, 2, -4),
    ];
    let other = [undefined(b"errno"), undefined(b"y")];
    let first = object(
        alloc,
        &uses,
        b"\x48\x8b\x05\0\0\0\0\x48\x8b\x05\0\0\0\0\xff\x10\x48\x8b\x05\0\0\0\0",
        &one,
    )?;
    let second = object(
        alloc,
        &other,
        b"\x48\x8b\x05\0\0\0\0\x48\x8b\x05\0\0\0\0",
        &again,
    )?;
    let files = vec![in alloc; first, second]?;
    assert_eq!(rt;
        said(alloc, &files, &startup)?.as_str(),
        "0.4 / y v errno 108"
    );
    Ok(())
}
