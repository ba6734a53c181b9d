//! Calls of two passes in turn, with the expected answers.

ghost use Rattle.std.specs.Prelude.{◌≡◌};
ghost use Rattle.shared_tests.specs.Races.{IsReady};

use crate::start::{halve, started};
use module_table::Event;
use shared_modules::{Pass, Shared};
use std::alloc::{AllocError, Global};
use std::process::Abort;
use std::sync::Wait;
use std::test::Fail;

/// A pass's first of 32 threads opens or closes an image, as the event says. The text has the answer, and then how many
/// events the pass had not seen.
fn call<R: Wait>(
    rt: &R,
    alloc: Global,
    shared: &Shared,
    pass: &mut Pass,
    event: Event,
) -> Result<String, AllocError>
    requires { IsReady event.thread 32 shared.now pass.old }
    ensures { IsReady event.thread 32 shared.now pass.new }
{
    let mut events: Vec<Event> = Vec::new(alloc);
    if event.opens {
        let answer = shared.open(rt, pass, event.thread, event.line, event.image, &mut events);
        return format!(in alloc; "{answer:?} {}", events.len());
    }
    let answer = shared.close(rt, pass, event.thread, event.line, event.image, &mut events);
    format!(in alloc; "{answer:?} {}", events.len())
}

/// Likewise, and checks the answer.
fn ask<R: Wait + Abort>(
    rt: &R,
    alloc: Global,
    shared: &Shared,
    pass: &mut Pass,
    event: Event,
    want: &str,
) -> Result<(), Fail>
    requires { IsReady event.thread 32 shared.now pass.old }
    ensures { IsReady event.thread 32 shared.now pass.new }
{
    let answer = call(rt, alloc, shared, pass, event)?;
    let found = answer.as_str();
    assert!(rt; found == want, "found {found}, want {want}");
    Ok(())
}

// Image 1 is the program, image 2 a late one, and there is no image 9. A refused call also gives
// the events not seen yet.
#[test]
fn a_pass_finds_what_the_other_did(rt: HostRuntime) -> Result<(), Fail> {
    let opened = "Ok(Opened { instance: 2, id: 2, at: 0 }) 0";
    let unknown = "Err(Unknown) 1";
    let closed = "Ok(Closed { at: 1, gone: true }) 0";
    let not_open = "Err(NotOpen) 1";
    let permanent = "Err(Permanent) 0";
    let alloc = rt.alloc();
    let (shared, pass) = started(alloc)?;
    let (mut left, mut right) = halve(&shared, pass, 1, 64);
    ask(&rt, alloc, &shared, &mut left, Event::open(1, 1, 2), opened)?;
    assert!(rt; shared.newer(&mut right) && !shared.newer(&mut left));
    ask(
        &rt,
        alloc,
        &shared,
        &mut right,
        Event::open(33, 1, 9),
        unknown,
    )?;
    assert!(rt; !shared.newer(&mut right) && right.seen() == 1);
    ask(
        &rt,
        alloc,
        &shared,
        &mut right,
        Event::close(33, 2, 2),
        closed,
    )?;
    ask(
        &rt,
        alloc,
        &shared,
        &mut left,
        Event::close(1, 2, 2),
        not_open,
    )?;
    ask(
        &rt,
        alloc,
        &shared,
        &mut left,
        Event::close(1, 3, 1),
        permanent,
    )?;
    let mut events = Vec::new(alloc);
    shared.catch_up(&rt, &mut right, &mut events)?;
    let pass = shared.join(left, right);
    let registry = shared.finish(pass);
    assert!(rt; events.is_empty() && registry.len() == 2);
    Ok(())
}
