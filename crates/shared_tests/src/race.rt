//! Threads that open and close at once.

ghost use Rattle.std.specs.Prelude.{◌≡◌, ◌≤◌, ◌+◌, ◌-◌, ◌*◌, ◌/◌, ℕ, length};
ghost use Rattle.std.specs.Thread.{IsSync};
ghost use Rattle.shared_tests.specs.Races.{IsReady};

use crate::start::{halve, started};
use module_table::Event;
use shared_modules::{Pass, Shared};
use std::alloc::Global;
use std::sync::Wait;
use std::test::Fail;
use std::thread;
use std::thread::{Threads, join};

/// A pass's first thread opens image 2 and closes it again; returns how many of the two were accepted.
pub(crate) fn open_and_close<R: Wait>(
    rt: &R,
    alloc: Global,
    shared: &Shared,
    mut pass: Pass,
    thread: u32,
    count: u32,
) -> (Pass, u32)
    requires { IsReady thread count shared.now pass }
    ensures ready { IsReady thread count shared.now result.0 }
    ensures few { result.1 ≤ 2 }
{
    let mut events = Vec::new(alloc);
    let opened = shared
        .open(rt, &mut pass, thread, 1, 2, &mut events)
        .is_ok();
    let closed = shared
        .close(rt, &mut pass, thread, 2, 2, &mut events)
        .is_ok();
    (pass, u32::from(opened) + u32::from(closed))
}

/// Each of `count` threads opens and closes, at once.
#[cycle(race)]
fn race<R: Threads + Wait + Sync>(
    rt: &R,
    alloc: Global,
    shared: &Shared,
    pass: Pass,
    first: u32,
    count: u32,
) -> (Pass, u32)
    requires { IsReady first count shared.now pass }
    ensures ready { IsReady first count shared.now result.0 }
    ensures few { result.1 ≤ 2 * count }
{
    if count == 1 {
        return open_and_close(rt, alloc, shared, pass, first, count);
    }
    let half = (count + 1) / 2;
    let next = first + half;
    let others = count - half;
    let (left, right) = halve(shared, pass, first, count);
    let ((left, some), (right, more)) = join(
        rt,
        move || -> (Pass, u32)
            requires sync { IsSync R.row }
            requires ready { IsReady first half shared.now left }
            ensures ready { IsReady first half shared.entry.now result.0 }
            ensures few { result.1 ≤ 2 * half }
        { race(rt, alloc, shared, left, first, half) },
        move || -> (Pass, u32)
            requires sync { IsSync R.row }
            requires ready { IsReady next others shared.now right }
            ensures ready { IsReady next others shared.entry.now result.0 }
            ensures few { result.1 ≤ 2 * others }
        { race(rt, alloc, shared, right, next, others) },
    );
    (shared.join(left, right), some + more)
}

/// Looks until there is something newer, and takes it.
fn look<R: Wait>(
    rt: &R,
    alloc: Global,
    shared: &Shared,
    mut pass: Pass,
    count: u32,
) -> (Pass, Vec<Event>)
    requires { IsReady 1 count shared.now pass }
    ensures { IsReady 1 count shared.now result.0 }
{
    let mut events = Vec::new(alloc);
    for _ in rt.forever() {
        if shared.newer(&mut pass) {
            break;
        }
        thread::yield_now();
    }
    let _ = shared.catch_up(rt, &mut pass, &mut events);
    (pass, events)
}

/// A pass's first thread opens image 2, again and again until it has memory.
fn open_at_last<R: Wait>(
    rt: &R,
    alloc: Global,
    shared: &Shared,
    mut pass: Pass,
    thread: u32,
    count: u32,
) -> Pass
    requires { IsReady thread count shared.now pass }
    ensures { IsReady thread count shared.now result }
{
    let mut events = Vec::new(alloc);
    for _ in rt.forever() {
        if shared
            .open(rt, &mut pass, thread, 1, 2, &mut events)
            .is_ok()
        {
            break;
        }
    }
    pass
}

/// A thread looks in a loop while another opens. Returns what the first one found.
fn watch<R: Threads + Wait + Sync>(
    rt: &R,
    alloc: Global,
    shared: &Shared,
    pass: Pass,
) -> (Pass, Vec<Event>)
    requires { IsReady 1 64 shared.now pass }
    ensures { IsReady 1 64 shared.now result.0 }
{
    let (left, right) = halve(shared, pass, 1, 64);
    let ((left, events), right) = join(
        rt,
        move || -> (Pass, Vec<Event>)
            requires { IsReady 1 32 shared.now left }
            ensures { IsReady 1 32 shared.entry.now result.0 }
        { look(rt, alloc, shared, left, 32) },
        move || -> Pass
            requires { IsReady 33 32 shared.now right }
            ensures { IsReady 33 32 shared.entry.now result }
        { open_at_last(rt, alloc, shared, right, 33, 32) },
    );
    (shared.join(left, right), events)
}

/// Two threads read one pass at once.
fn read_at_once<R: Threads>(rt: &R, pass: &Pass) -> (u64, u64)
    ensures first { result.0 ≡ length pass.now.seen }
    ensures second { result.1 ≡ length pass.now.seen }
{
    join(rt, || pass.seen(), || pass.seen())
}

// Each open is accepted, and so is the close of a thread that opened; after that everything is as at the start.
#[test]
fn threads_open_and_close_at_once(rt: HostRuntime) -> Result<(), Fail> {
    let (shared, pass) = started(rt.alloc())?;
    let (mut pass, accepted) = race(&rt, rt.alloc(), &shared, pass, 1, 64);
    let newer = shared.newer(&mut pass);
    let seen = read_at_once(&rt, &pass);
    let registry = shared.finish(pass);
    assert!(rt; accepted == 128 && seen == (128, 128) && !newer);
    assert!(rt; registry.len() == 128 && registry.current(2).is_none());
    Ok(())
}

// The event that the look found is the open; both passes have seen everything.
#[test]
fn a_look_finds_what_another_thread_did(rt: HostRuntime) -> Result<(), Fail> {
    let (shared, pass) = started(rt.alloc())?;
    let (mut pass, events) = watch(&rt, rt.alloc(), &shared, pass);
    assert!(rt; events.first() == Some(&Event::open(33, 1, 2)));
    assert!(rt; !shared.newer(&mut pass) && pass.seen() == 1);
    Ok(())
}

// Whichever allocation fails, no thread waits for ever, and the history has exactly the calls that were accepted.
#[test]
fn want_of_memory_stops_no_one(rt: HostRuntime) -> Result<(), Fail> {
    let Ok((shared, pass)) = started(rt.alloc()) else {
        return Ok(());
    };
    let (pass, accepted) = race(&rt, rt.alloc(), &shared, pass, 1, 64);
    let registry = shared.finish(pass);
    assert!(rt; registry.len() == u64::from(accepted));
    Ok(())
}
