//! Objects that do not link, and which fault is reported.

use crate::cases::check_all;
use std::test::Fail;

/// One fault each, together with objects that link.
const ALONE: &str = "\
// nothing defines u; what is loaded with the image exports y, but no TPOFF32 may reach it
* exe gd:u -> Undefined at object Some(0) section 4 entry 0
* exe ~u=? gd:u -> Undefined at object Some(0) section 4 entry 0
* exe le:y -> Undefined at object Some(0) section 4 entry 0
* exe gd:y -> links
* exe d:0000000000000000 q:u,0,0 -> Undefined at object Some(0) section 5 entry 0
// the second of two GLOBAL definitions, by its symbol; the symbol table is section 5 if code has no relocations
* exe f=c0 | f=c0 -> Duplicate at object Some(1) section 5 entry 1
* exe .f=c0 | .f=c0 -> links
* exe ~__tls_get_addr=c0 -> Duplicate at object Some(0) section 5 entry 1
* exe .__tls_get_addr=c0 -> links
// initial exec code for a function, and a call of a variable
* exe f=c0 mov:f -> NotTls at object Some(0) section 4 entry 0
* exe x=v0 v:00 call:x -> NotTls at object Some(0) section 4 entry 0
// an offset from the thread pointer
* start/late x=v0 v:00 le:x -> LocalExecInModule at object Some(0) section 4 entry 0
* pie x=v0 v:00 le:x -> links
// an address in 32 bits
* pie/start/late f=c0 narrow:f -> NarrowInModule at object Some(0) section 4 entry 0
* exe f=c0 narrow:f -> links
// 2^20 + 1 bytes of thread-local storage, and 2^20
* exe v:00 z:100000 -> TlsTooLarge at object None section 0 entry 0
* exe z:100000 -> links
// a page of code and 2^24 bytes of zeros
* exe c:c3 b:100000,10 -> ImageTooLarge at object None section 0 entry 0
// variables at the end of no storage: local dynamic code and a descriptor need a block of the image in each kind of
// image, the others in modules
* exe/exe-kept/start x=v0 ld:x -> NoTls at object Some(0) section 4 entry 0
* exe/exe-kept/late x=v0 lea:x -> NoTls at object Some(0) section 4 entry 0
* start/late x=v0 gd:x -> NoTls at object Some(0) section 4 entry 0
* start/late x=v0 mov:x -> NoTls at object Some(0) section 4 entry 0
* start gd:y mov:y lea:y -> links
* exe/exe-kept/pie x=v0 gd:x mov:x -> links
// 400000 + 7fffffff is above 2^31 - 1; 400000 - 4 - 2^31 - 400001 is below -2^31
* exe f=c0 narrow:f,7fffffff -> Overflow at object Some(0) section 4 entry 0
* exe f=c0 narrow:f,7fbfffff -> links
* exe f=c0 call:f,-80000000 -> Overflow at object Some(0) section 4 entry 0
* exe f=c0 call:f,-7ffffffb -> links
";

/// Two faults each: the earlier kind is reported, wherever it is, and of one kind the first object, section and entry.
const TWO: &str = "
* exe f=c0 f=c0 | gd:u -> Undefined at object Some(1) section 4 entry 0
* start x=v0 v:00 le:x gd:u -> Undefined at object Some(0) section 4 entry 1
* exe f=c0 mov:f | f=c0 -> Duplicate at object Some(1) section 5 entry 1
* start f=c0 x=v0 v:00 le:x mov:f -> NotTls at object Some(0) section 4 entry 1
* start f=c0 x=v0 v:00 narrow:f le:x -> LocalExecInModule at object Some(0) section 4 entry 1
* pie f=c0 narrow:f v:00 z:100000 -> NarrowInModule at object Some(0) section 4 entry 0
* exe c:c3 v:00 z:100000 b:100000,10 -> TlsTooLarge at object None section 0 entry 0
* exe x=v0 ld:x b:100000,10 -> ImageTooLarge at object None section 0 entry 0
* exe f=c0 x=v0 narrow:f,7fffffff ld:x -> NoTls at object Some(0) section 4 entry 1
* exe d:0000000000000000 q:u,0,0 call:u | gd:u -> Undefined at object Some(0) section 4 entry 0
* exe d:0000000000000000 q:u,0,0 gd:y -> Undefined at object Some(0) section 6 entry 0
* exe gd:y call:u call:v -> Undefined at object Some(0) section 4 entry 2
* exe x=v0 x=v0 | x=v0 -> Duplicate at object Some(0) section 5 entry 2
* exe f=c0 call:f | call:f call:f,-80000000 call:f,-80000000 -> Overflow at object Some(1) section 4 entry 1
";

#[test]
fn one_fault(rt: HostRuntime) -> Result<(), Fail> {
    check_all(&rt, rt.alloc(), ALONE)
}

#[test]
fn two_faults(rt: HostRuntime) -> Result<(), Fail> {
    check_all(&rt, rt.alloc(), TWO)
}
