//! Tests of what no clause says: the printed words, and each call once.

use link_faults::{LinkFault, LinkFaultKind};
use std::alloc::{AllocError, Global};
use std::test::Fail;

/// A fault as it is printed.
fn printed(alloc: Global, fault: LinkFault) -> Result<String, AllocError> {
    format!(in alloc; "{fault}")
}

#[test]
fn prints_a_fault(rt: HostRuntime) -> Result<(), Fail> {
    let undefined = LinkFault::At {
        kind: LinkFaultKind::Undefined,
        object: Some(0),
        section: 1,
        entry: 3,
    };
    assert!(rt;
        printed(rt.alloc(), undefined)?.as_str() == "Undefined at object Some(0) section 1 entry 3"
    );
    assert!(rt; printed(rt.alloc(), AllocError.into())?.as_str() == "out of memory");
    Ok(())
}
