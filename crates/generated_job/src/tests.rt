//! The job of three objects, and its files, checked against the bytes that another program wrote.
use crate::{GeneratedFile, generated_objects, generated_text};
use std::process::Abort;
use std::test::Fail;

/// The module's object, whole.
const MODULE: &[u8] = b"\
\x7fELF\x02\x01\x01\0\0\0\0\0\0\0\0\0\x01\0>\0\x01\0\0\0\0\0\0\0\0\0\0\0\0\0\0\0\0\0\0\0@\0\0\0\
\0\0\0\0\0\0\0\0@\0\0\0\0\0@\0\x08\0\x07\0\0\0\0\0\0\0\0\0\0\0\0\0\0\0\0\0\0\0\0\0\0\0\0\0\0\0\0\
\0\0\0\0\0\0\0\0\0\0\0\0\0\0\0\0\0\0\0\0\0\0\0\0\0\0\0\0\0\0\0\0\0\0\0\0\0\x01\0\0\0\x01\0\0\0\
\x06\0\0\0\0\0\0\0\0\0\0\0\0\0\0\0@\x02\0\0\0\0\0\0\x15\0\0\0\0\0\0\0\0\0\0\0\0\0\0\0\x10\0\0\0\
\0\0\0\0\0\0\0\0\0\0\0\0\x07\0\0\0\x04\0\0\0\0\0\0\0\0\0\0\0\0\0\0\0\0\0\0\0\x06\x03\0\0\0\0\0\0\
0\0\0\0\0\0\0\0\x05\0\0\0\x01\0\0\0\x08\0\0\0\0\0\0\0\x18\0\0\0\0\0\0\0\x12\0\0\0\x01\0\0\0\x03\
\x04\0\0\0\0\0\0\0\0\0\0\0\0\0\0U\x02\0\0\0\0\0\0\x04\0\0\0\0\0\0\0\0\0\0\0\0\0\0\0\x04\0\0\0\0\
\0\0\0\0\0\0\0\0\0\0\0\x19\0\0\0\x08\0\0\0\x03\x04\0\0\0\0\0\0\0\0\0\0\0\0\0\0Y\x02\0\0\0\0\0\0\
\x04\0\0\0\0\0\0\0\0\0\0\0\0\0\0\0\x04\0\0\0\0\0\0\0\0\0\0\0\0\0\0\0\x1f\0\0\0\x02\0\0\0\0\0\0\0\
\0\0\0\0\0\0\0\0\0\0\0\0Y\x02\0\0\0\0\0\0`\0\0\0\0\0\0\0\x06\0\0\0\x01\0\0\0\x08\0\0\0\0\0\0\0\
\x18\0\0\0\0\0\0\0'\0\0\0\x03\0\0\0\0\0\0\0\0\0\0\0\0\0\0\0\0\0\0\0\xb9\x02\0\0\0\0\0\0\x14\0\0\
\0\0\0\0\0\0\0\0\0\0\0\0\0\x01\0\0\0\0\0\0\0\0\0\0\0\0\0\0\0/\0\0\0\x03\0\0\0\0\0\0\0\0\0\0\0\0\
\0\0\0\0\0\0\0\xcd\x02\0\0\0\0\0\09\0\0\0\0\0\0\0\0\0\0\0\0\0\0\0\x01\0\0\0\0\0\0\0\0\0\0\0\0\0\
\0\0WfH\x8d=\0\0\0\0ffH\xe8\0\0\0\0Y\x89\x08\xc3\x05\0\0\0\0\0\0\0\0\0\0\0\0\0\0\0\0\0\0\0\0\0\0\
\0\0\0\0\0\x01\0\0\0\x12\0\x01\0\0\0\0\0\0\0\0\0\x15\0\0\0\0\0\0\0\x03\0\0\0\x16\0\x03\0\0\0\0\0\
\0\0\0\0\x04\0\0\0\0\0\0\0\x05\0\0\0\x10\0\0\0\0\0\0\0\0\0\0\0\0\0\0\0\0\0\0\0\0f\0v\0__tls_get_\
addr\0\0.text\0.rela.text\0.tdata\0.tbss\0.symtab\0.strtab\0.shstrtab\0\x05\0\0\0\0\0\0\0\x13\0\
\0\0\x02\0\0\0\xfc\xff\xff\xff\xff\xff\xff\xff\x0d\0\0\0\0\0\0\0\x04\0\0\0\x03\0\0\0\xfc\xff\xff\
\xff\xff\xff\xff\xff";

/// The first object of the program with three, from its code on.
const GENERAL_DYNAMIC: &[u8] = b"\
fH\x8d=\0\0\0\0ffH\xe8\0\0\0\0\x8b\0\xc3\x12\0\0\0\0\0\0\0\0\0\0\0\0\0\0\0\0\0\0\0\0\0\0\0\0\0\0\
\0\x01\0\0\0\x12\0\x01\0\0\0\0\0\0\0\0\0\x13\0\0\0\0\0\0\0\x04\0\0\0\x16\0\x03\0\0\0\0\0\0\0\0\0\
\x04\0\0\0\0\0\0\0\x07\0\0\0\x10\0\0\0\0\0\0\0\0\0\0\0\0\0\0\0\0\0\0\0\0f1\0x1\0__tls_get_addr\0\
\0.text\0.rela.text\0.tdata\0.tbss\0.symtab\0.strtab\0.shstrtab\0\x04\0\0\0\0\0\0\0\x13\0\0\0\
\x02\0\0\0\xfc\xff\xff\xff\xff\xff\xff\xff\x0c\0\0\0\0\0\0\0\x04\0\0\0\x03\0\0\0\xfc\xff\xff\xff\
\xff\xff\xff\xff";

/// The second object of the program with three, from its code on.
const INITIAL_EXECUTABLE: &[u8] = b"\
H\x8b\x05\0\0\0\0d\x8b\0\xc3]\0\0\0\0\0\0\0\0\0\0\0\0\0\0\0\0\0\0\0\0\0\0\0\0\0\0\0\x01\0\0\0\
\x12\0\x01\0\0\0\0\0\0\0\0\0\x0b\0\0\0\0\0\0\0\x04\0\0\0\x16\0\x03\0\0\0\0\0\0\0\0\0\x04\0\0\0\0\
\0\0\0\0f2\0x2\0\0.text\0.rela.text\0.tdata\0.tbss\0.symtab\0.strtab\0.shstrtab\0\x03\0\0\0\0\0\
\0\0\x16\0\0\0\x02\0\0\0\xfc\xff\xff\xff\xff\xff\xff\xff";

/// The third object of the program with three, from its code on.
const LOCAL_DYNAMIC: &[u8] = b"\
H\x8d=\0\0\0\0\xe8\0\0\0\0\x8b\x80\0\0\0\0\xc3\xd4\x01\0\0\0\0\0\0\0\0\0\0\0\0\0\0\0\0\0\0\0\0\0\
\0\0\0\0\0\x01\0\0\0\x12\0\x01\0\0\0\0\0\0\0\0\0\x13\0\0\0\0\0\0\0\x04\0\0\0\x16\0\x03\0\0\0\0\0\
\0\0\0\0\x04\0\0\0\0\0\0\0\x07\0\0\0\x10\0\0\0\0\0\0\0\0\0\0\0\0\0\0\0\0\0\0\0\0f3\0x3\0__tls_ge\
t_addr\0\0.text\0.rela.text\0.tdata\0.tbss\0.symtab\0.strtab\0.shstrtab\0\x03\0\0\0\0\0\0\0\x14\
\0\0\0\x02\0\0\0\xfc\xff\xff\xff\xff\xff\xff\xff\x08\0\0\0\0\0\0\0\x04\0\0\0\x03\0\0\0\xfc\xff\
\xff\xff\xff\xff\xff\xff\x0e\0\0\0\0\0\0\0\x15\0\0\0\x02\0\0\0\0\0\0\0\0\0\0\0";

const TEXT_OF_ONE: &[u8] = b"\
image app exe g1.o
image plug late p.o
threads 2
1 open plug
1 call app f1 0 0 0
2 call plug f 1 0 0
2 peek plug v 4
2 close plug
";

const TEXT_OF_THREE: &[u8] = b"\
image app exe g1.o g2.o g3.o
image plug late p.o
threads 2
1 open plug
1 call app f1 0 0 0
1 call app f2 0 0 0
1 call app f3 0 0 0
2 call plug f 1 0 0
2 call plug f 2 0 0
2 call plug f 3 0 0
2 peek plug v 4
2 close plug
";

#[test]
fn texts_of_jobs(rt: HostRuntime) -> Result<(), Fail> {
    let one = generated_text(rt.alloc(), 1)?;
    assert!(rt; one.as_slice() == TEXT_OF_ONE);
    let three = generated_text(rt.alloc(), 3)?;
    assert!(rt; three.as_slice() == TEXT_OF_THREE);
    Ok(())
}

/// Checks a file's name, and its bytes from an offset on.
fn check(rt: &impl Abort, file: &GeneratedFile, name: &str, from: usize, bytes: &[u8]) {
    assert!(rt; file.name() == name);
    assert!(rt; file.bytes().get(from..) == Some(bytes), "{name}");
}

#[test]
fn objects_of_three(rt: HostRuntime) -> Result<(), Fail> {
    let files = generated_objects(rt.alloc(), 3)?;
    let [first, second, third, module] = files.as_slice() else {
        assert!(rt; false, "four files");
        return Ok(());
    };
    check(&rt, first, "g1.o", 576, GENERAL_DYNAMIC);
    check(&rt, second, "g2.o", 576, INITIAL_EXECUTABLE);
    check(&rt, third, "g3.o", 576, LOCAL_DYNAMIC);
    check(&rt, module, "p.o", 0, MODULE);
    Ok(())
}
