//! An open of a shared history, and a pass that catches up, fail only when memory runs out, at any point where they
//! allocate: pass, list and history stay as they were, and a second try gives the result that the first would have
//! given. A test that met such a failure says so in a line.

ghost use Rattle.std.specs.Prelude.{IfOk};
ghost use Rattle.shared_tests.specs.Races.{IsReady};

use crate::race::open_and_close;
use crate::start::{halve, started};
use module_table::{Event, OpenRefusal, Opened};
use shared_modules::{Pass, Shared};
use std::alloc::{AllocError, Global};
use std::io::Print;
use std::process::Abort;
use std::sync::Wait;
use std::test::Fail;

/// Whether a list has what the second pass did: it opened and closed image 2, twice.
fn is_lacked(events: &[Event]) -> bool {
    let lacked = [
        Event::open(33, 1, 2),
        Event::close(33, 2, 2),
        Event::open(33, 1, 2),
        Event::close(33, 2, 2),
    ];
    events == lacked.as_slice()
}

/// A shared history, and its pass in halves. The second pass added four events, which the first has not seen; the
/// registry has no room for a fifth.
fn begun<R: Wait>(rt: &R, alloc: Global) -> Result<(Shared, Pass, Pass), AllocError>
    ensures left { IfOk result (λ begun. IsReady 1 32 begun.0 begun.1) }
    ensures right { IfOk result (λ begun. IsReady 33 32 begun.0 begun.2) }
{
    let (shared, pass) = started(alloc)?;
    let (left, right) = halve(&shared, pass, 1, 64);
    let (right, first) = open_and_close(rt, alloc, &shared, right, 33, 32);
    let (right, second) = open_and_close(rt, alloc, &shared, right, 33, 32);
    if first + second < 4 {
        return Err(AllocError);
    }
    Ok((shared, left, right))
}

/// Thread 1 opens image 2.
fn open_once<R: Wait>(
    rt: &R,
    shared: &Shared,
    pass: &mut Pass,
    told: &mut Vec<Event>,
) -> Result<Opened, OpenRefusal>
    requires { IsReady 1 32 shared.now pass.old }
    ensures { IsReady 1 32 shared.now pass.new }
{
    shared.open(rt, pass, 1, 1, 2, told)
}

/// The first pass and its list have nothing of the history, and nothing was added that the second has not seen.
fn expect_as_before(
    rt: &impl Abort,
    shared: &Shared,
    left: &mut Pass,
    right: &mut Pass,
    told: &[Event],
)
    requires left { IsReady 1 32 shared.now left.old }
    requires right { IsReady 33 32 shared.now right.old }
    ensures left { IsReady 1 32 shared.now left.new }
    ensures right { IsReady 33 32 shared.now right.new }
{
    assert!(rt; left.seen() == 0 && told.is_empty(), "the pass or its list");
    assert!(rt; shared.newer(left) && !shared.newer(right), "the history");
}

/// Opens image 2, and again if the first try fails.
fn open_twice(rt: &(impl Wait + Abort + Print), alloc: Global) -> Result<(), AllocError> {
    let (shared, mut left, mut right) = begun(rt, alloc)?;
    let mut told = Vec::new(alloc);
    let mut answer = open_once(rt, &shared, &mut left, &mut told);
    if answer == Err(OpenRefusal::OutOfMemory) {
        expect_as_before(rt, &shared, &mut left, &mut right, &told);
        let _ = println!(rt; "refused: Shared::open");
        answer = open_once(rt, &shared, &mut left, &mut told);
    }
    let want = Opened {
        instance: 4,
        id: 2,
        at: 4,
    };
    assert!(rt;
        answer == Ok(want) && is_lacked(&told),
        "an open: {answer:?}"
    );
    assert!(rt; left.seen() == 5 && shared.newer(&mut right));
    let pass = shared.join(left, right);
    let registry = shared.finish(pass);
    assert!(rt; registry.len() == 5 && registry.current(2) == Some(4));
    Ok(())
}

/// Takes the events that the first pass has not seen, and again if the first try fails.
fn catch_up_twice(rt: &(impl Wait + Abort + Print), alloc: Global) -> Result<(), AllocError> {
    let (shared, mut left, mut right) = begun(rt, alloc)?;
    let mut told = Vec::new(alloc);
    let mut answer = shared.catch_up(rt, &mut left, &mut told);
    if answer.is_err() {
        expect_as_before(rt, &shared, &mut left, &mut right, &told);
        let _ = println!(rt; "refused: Shared::catch_up");
        answer = shared.catch_up(rt, &mut left, &mut told);
    }
    assert!(rt; answer.is_ok() && is_lacked(&told) && left.seen() == 4);
    assert!(rt; !shared.newer(&mut left) && !shared.newer(&mut right));
    let pass = shared.join(left, right);
    let registry = shared.finish(pass);
    assert!(rt; registry.len() == 4 && registry.current(2).is_none());
    Ok(())
}

#[test]
fn refused_open(rt: HostRuntime) -> Result<(), Fail> {
    let _ = open_twice(&rt, rt.alloc());
    Ok(())
}

#[test]
fn refused_catch_up(rt: HostRuntime) -> Result<(), Fail> {
    let _ = catch_up_twice(&rt, rt.alloc());
    Ok(())
}
