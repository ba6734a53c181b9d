//! A thread that looks while another has the lock.
//!
//! No public call holds the lock longer than its own work takes. So here this work is long: one thread has added a
//! million events, and another, which has seen none of them, takes them all, and holds the lock while it copies them.
//! Until it is done, the first one looks again and again. There is nothing new for it, so each of its looks is one
//! load, which waits for nobody.
//!
//! The test shows that a thousand looks that found nothing new ended after the other thread had begun, and before it
//! was done. Looks that took the lock would come after the other's ticket, all but the few that draw one before it. A
//! machine may let one of the two threads rest as long as the other works, so it tries up to 16 times. That a look
//! returns at all needs no test: `newer` may not wait.

ghost use Rattle.shared_tests.specs.Races.{IsReady};

use crate::start::{halve, started};
use shared_modules::{Pass, Shared};
use std::alloc::{AllocError, Global};
use std::sync::Wait;
use std::sync::atomic::{AtomicU64, Ordering};
use std::test::Fail;
use std::thread;
use std::thread::{Threads, join};

/// The other thread has not begun yet.
const BEFORE: u64 = 0;

/// The other thread takes its turn.
const BESIDE: u64 = 1;

/// Thread 33 opens image 2 a million times. Its pass has seen all of these events.
fn add_events<R: Wait>(rt: &R, alloc: Global, shared: &Shared, mut pass: Pass) -> Pass
    requires { IsReady 33 32 shared.now pass }
    ensures { IsReady 33 32 shared.now result }
{
    let mut events = Vec::new(alloc);
    for _ in 0..1_u32 << 20 {
        let _ = shared.open(rt, &mut pass, 33, 1, 2, &mut events);
    }
    pass
}

/// Takes all events, and marks when it begins and when it is done.
fn take_events<R: Wait>(
    rt: &R,
    alloc: Global,
    shared: &Shared,
    mut pass: Pass,
    turn: &AtomicU64,
) -> Pass
    requires { IsReady 1 32 shared.now pass }
    ensures { IsReady 1 32 shared.now result }
{
    let mut events = Vec::new(alloc);
    turn.store(BESIDE, Ordering::SeqCst);
    let _ = shared.catch_up(rt, &mut pass, &mut events);
    turn.store(2, Ordering::SeqCst);
    pass
}

/// Looks until the other thread is done, and returns how many of these looks found nothing new.
fn look_beside(shared: &Shared, mut pass: Pass, turn: &AtomicU64) -> (Pass, u64)
    requires { IsReady 33 32 shared.now pass }
    ensures { IsReady 33 32 shared.now result.0 }
{
    let mut looks = 0_u64;
    for _ in 0..1_u64 << 26 {
        match turn.load(Ordering::SeqCst) {
            BEFORE => thread::yield_now(),
            BESIDE => looks = looks.wrapping_add(u64::from(!shared.newer(&mut pass))),
            _ => break,
        }
    }
    (pass, looks)
}

/// One thread takes all events while another looks. Returns how many of those looks found nothing new.
fn turn_and_looks<R: Threads + Wait + Sync>(
    rt: &R,
    alloc: Global,
    shared: &Shared,
    left: Pass,
    right: Pass,
    turn: &AtomicU64,
) -> u64
    requires left { IsReady 1 32 shared.now left }
    requires right { IsReady 33 32 shared.now right }
{
    let (_left, (_right, looks)) = join(
        rt,
        move || -> Pass
            requires { IsReady 1 32 shared.now left }
            ensures { IsReady 1 32 shared.entry.now result }
        { take_events(rt, alloc, shared, left, turn) },
        move || -> (Pass, u64)
            requires { IsReady 33 32 shared.now right }
            ensures { IsReady 33 32 shared.entry.now result.0 }
        { look_beside(shared, right, turn) },
    );
    looks
}

/// How many looks that found nothing new ended during another thread's turn.
fn looks_beside<R: Threads + Wait + Sync>(rt: &R, alloc: Global) -> Result<u64, AllocError> {
    let (shared, pass) = started(alloc)?;
    let (left, right) = halve(&shared, pass, 1, 64);
    let right = add_events(rt, alloc, &shared, right);
    let turn = AtomicU64::new(BEFORE);
    Ok(turn_and_looks(rt, alloc, &shared, left, right, &turn))
}

#[test]
fn looks_wait_for_no_turn(rt: HostRuntime) -> Result<(), Fail> {
    for _ in 0..16_u32 {
        if looks_beside(&rt, rt.alloc())? >= 1_000 {
            return Ok(());
        }
    }
    Err(Fail::from("looks waited"))
}
