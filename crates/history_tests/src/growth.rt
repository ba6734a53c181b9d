//! An open or a close that cannot store its event fails only with `OutOfMemory`: the registry then gives the same
//! answers as before, and a second try gives the result that the first would have given. A test that met such a
//! failure says so in a line.

use module_table::{CloseRefusal, Closed, ImageInfo, OpenRefusal, Opened, Registry};
use std::alloc::{AllocError, Global};
use std::io::Print;
use std::process::Abort;
use std::test::Fail;

/// A registry of a program, image 1, and of late images of 8 bytes; image 3 has static blocks. Image 2
/// was opened `opens` times.
fn opened_so_often(rt: &impl Abort, alloc: Global, opens: u32) -> Result<Registry, AllocError> {
    let program = ImageInfo {
        late: false,
        statics: false,
        size: 4,
        align: 4,
    };
    let plug = ImageInfo {
        late: true,
        size: 8,
        ..program
    };
    let fixed = ImageInfo {
        statics: true,
        ..plug
    };
    let mut registry = Registry::new(alloc, &[program, plug, fixed], 4)?;
    for line in 0..opens {
        if registry.open(1, line, 2) == Err(OpenRefusal::OutOfMemory) {
            return Err(AllocError);
        }
    }
    assert!(rt; registry.len() == u64::from(opens));
    Ok(registry)
}

/// Whether two registries give the same answer to each question with this number.
fn answer_alike(one: &Registry, other: &Registry, number: u32) -> bool {
    one.live(number) == other.live(number)
        && one.current(number) == other.current(number)
        && one.instance_of(u64::from(number)) == other.instance_of(u64::from(number))
        && one.offset(number) == other.offset(number)
}

/// Whether two registries give the same answers; there are at most three images, instances and ids.
fn are_alike(one: &Registry, other: &Registry) -> bool {
    if one.len() != other.len() || one.since(0) != other.since(0) {
        return false;
    }
    for number in 0..5 {
        if !answer_alike(one, other, number) {
            return false;
        }
    }
    true
}

/// A call that was refused memory left a registry as it was. Says so in a line.
fn left_alone(
    rt: &(impl Abort + Print),
    tried: &Registry,
    registry: &Registry,
    call: &str,
    at: u64,
) {
    assert!(rt;
        are_alike(tried, registry),
        "a refused {call} left something"
    );
    let _ = println!(rt; "refused: Registry::{call}, event {at}");
}

/// Opens image 3 after `opens` opens of image 2, in a copy whose list of events is full, and again if the first try
/// fails.
fn open_behind(
    rt: &(impl Abort + Print),
    alloc: Global,
    opens: u32,
    want: Opened,
) -> Result<(), AllocError> {
    let registry = opened_so_often(rt, alloc, opens)?;
    let mut tried = registry.copy()?;
    let mut answer = tried.open(2, 1, 3);
    if answer == Err(OpenRefusal::OutOfMemory) {
        left_alone(rt, &tried, &registry, "open", want.at);
        answer = tried.open(2, 1, 3);
    }
    assert!(rt; answer == Ok(want), "an open: {answer:?}");
    assert!(rt; tried.len() == registry.len() + 1 && tried.offset(want.instance) == Some(12));
    Ok(())
}

/// Closes image 2 after its one open, likewise.
fn close_behind(rt: &(impl Abort + Print), alloc: Global, want: Closed) -> Result<(), AllocError> {
    let registry = opened_so_often(rt, alloc, 1)?;
    let mut tried = registry.copy()?;
    let mut answer = tried.close(2, 1, 2);
    if answer == Err(CloseRefusal::OutOfMemory) {
        left_alone(rt, &tried, &registry, "close", want.at);
        answer = tried.close(2, 1, 2);
    }
    assert!(rt; answer == Ok(want), "a close: {answer:?}");
    assert!(rt; tried.len() == registry.len() + 1 && !tried.live(2));
    Ok(())
}

#[test]
fn refused_first_open(rt: HostRuntime) -> Result<(), Fail> {
    let want = Opened {
        instance: 2,
        id: 2,
        at: 0,
    };
    let _ = open_behind(&rt, rt.alloc(), 0, want);
    Ok(())
}

#[test]
fn refused_later_open(rt: HostRuntime) -> Result<(), Fail> {
    let want = Opened {
        instance: 3,
        id: 3,
        at: 5,
    };
    let _ = open_behind(&rt, rt.alloc(), 5, want);
    Ok(())
}

#[test]
fn refused_close(rt: HostRuntime) -> Result<(), Fail> {
    let want = Closed { at: 1, gone: true };
    let _ = close_behind(&rt, rt.alloc(), want);
    Ok(())
}
