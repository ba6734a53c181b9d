//! Which definition a name binds to, what images export, and which fault comes first.

use crate::images::{exported, files_of, images_of, said};
use std::alloc::Global;
use std::process::Abort;
use std::test::Fail;

/// Each line: the binding of each use, or the fault; then the objects of an image, separated by `/`, and each startup
/// image after a `|`. An object is words KIND:NAME, its symbols from number 1 on, and TYPE@SYMBOL, its uses by
/// relocations. Of the types, 23 (TPOFF32) and 20 (TLSLD) may name only the image's own symbols; 19 (TLSGD), 22
/// (GOTTPOFF), 34 (GOTPC32_TLSDESC) and 35 (TLSDESC_CALL) may name those of another image; 0 (NONE), 1 (64), 4
/// (PLT32) and 9 (GOTPCREL) are not for variables.
const CASES: &str = "\
// a GLOBAL definition before a WEAK one, whichever comes first; symbol 1 of object 1 in both
here 1 1: u:x 23@1 / v:x / wv:x
here 2 1: u:x 23@1 / wv:x / v:x
// the first of two WEAK definitions, and the same symbol if both are WEAK
here 1 2: u:x 23@1 / wv:w wv:x / wv:x
// a LOCAL symbol binds to itself, and the other object's use of the name to the GLOBAL one
here 0 1 here 1 1 here 1 1: l:x 23@1 / v:x 23@1 / u:x 23@1
// one object has a LOCAL and a GLOBAL symbol with one name
here 0 1 here 0 2: l:x v:x 23@1 23@2
// for a name in two startup images the first, and only for the four types that may name another image's symbols
startup 1 startup 2 startup 1 startup 2 run-time: u:x wu:y u:__tls_get_addr 19@1 22@2 34@1 35@2 4@3 0@9 | v:x vh:z f:f | v:x wv:y vi:i vp:p
// a use that may not name another image's symbol
Undefined at object Some(0) section 3 entry 1: u:x 19@1 23@1 | v:x vh:z
// a hidden name, a WEAK one that nothing defines, and a module pair, which is the image's own
Undefined at object Some(0) section 3 entry 0: u:z 19@1 | v:x vh:z
Undefined at object Some(1) section 3 entry 0:  / wu:w 1@1
Undefined at object Some(0) section 3 entry 0: u:x 20@1 | v:x vh:z
// two GLOBAL definitions of a name that nothing uses, in two objects and in one; section 3 holds the symbols
Duplicate at object Some(1) section 3 entry 2: v:x / f:f v:x
Duplicate at object Some(0) section 3 entry 3: v:x f:f v:x
// the run time's function, WEAK; a LOCAL one with that name is allowed, and so is a GLOBAL one next to a WEAK one
Duplicate at object Some(0) section 3 entry 1: wf:__tls_get_addr
here 0 1 here 0 2: k:__tls_get_addr v:x wv:x 4@1 23@3
// a function with a TLS type, and a variable with another type
NotTls at object Some(0) section 3 entry 1: v:x f:f 23@1 19@2
NotTls at object Some(0) section 3 entry 1: v:x f:f 4@2 9@1
// the run time's function is not a variable, and the definition decides, not the type of the undefined symbol
NotTls at object Some(0) section 3 entry 0: u:__tls_get_addr 19@1
// NotTls in object 0, Duplicate in object 1, Undefined in object 2: the order of kinds comes before that of places
Undefined at object Some(2) section 3 entry 0: v:x f:f 19@2 / v:x / u:n 4@1
Duplicate at object Some(1) section 3 entry 1: v:x f:f 19@2 / v:x
";

/// Compares the found text with the expected one.
fn same(rt: &impl Abort, found: &str, want: &str, line: &str) {
    assert!(rt; found.trim_end() == want, "{found}: {line}");
}

/// Checks one case.
fn check(rt: &impl Abort, alloc: Global, line: &str) -> Result<(), Fail> {
    let (want, rest) = line.split_once(": ").ok_or("an answer")?;
    let own = rest.split('|').next().unwrap_or("");
    let files = files_of(alloc, own)?;
    let images = images_of(alloc, rest)?;
    same(rt, said(alloc, &files, &images)?.as_str(), want, line);
    Ok(())
}

#[test]
fn names_bind(rt: HostRuntime) -> Result<(), Fail> {
    for line in CASES.lines() {
        if !line.starts_with("//") {
            check(&rt, rt.alloc(), line)?;
        }
    }
    Ok(())
}

// z is hidden, i internal, p protected, and f is not a variable.
#[test]
fn images_export(rt: HostRuntime) -> Result<(), Fail> {
    let images = images_of(rt.alloc(), "| v:x vh:z f:f | v:x wv:y vi:i vp:p")?;
    assert!(rt; exported(rt.alloc(), &images)?.as_slice() == b"x /x y p /".as_slice());
    Ok(())
}
