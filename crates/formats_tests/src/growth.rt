//! Reading an object fails only when memory runs out, at any point where it allocates, and the same bytes read again
//! give the object. They are borrowed, so nothing can change them. A test that met such a failure says so in a line.

use crate::objects::example;
use elf_object::{Object, ObjectFault};
use std::alloc::{AllocError, Global};
use std::io::Print;
use std::process::Abort;
use std::test::Fail;

/// Whether an object is the example.
fn is_example(object: &Object) -> bool {
    object.section_count() == 8
        && object.symbol_count() == 3
        && object.relocs(1).len() == 2
        && object.relocation_table(1) == Some(2)
        && object.section_name(3) == b".tdata".as_slice()
        && object.symbol_name(2) == b"x".as_slice()
}

/// Reads the example, and again if the first read fails.
fn read_twice(rt: &(impl Abort + Print), alloc: Global) -> Result<(), AllocError> {
    let bytes = example(alloc)?;
    let mut answer = Object::read(alloc, &bytes);
    if matches!(answer, Err(ObjectFault::OutOfMemory)) {
        let _ = println!(rt; "refused: Object::read");
        answer = Object::read(alloc, &bytes);
    }
    match answer {
        Ok(object) => assert!(rt; is_example(&object), "another object"),
        Err(fault) => assert!(rt; false, "{fault}"),
    }
    Ok(())
}

#[test]
fn refused_read(rt: HostRuntime) -> Result<(), Fail> {
    let _ = read_twice(&rt, rt.alloc());
    Ok(())
}
