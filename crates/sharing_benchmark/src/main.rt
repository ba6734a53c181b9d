//! Measures how long looks and opens take while other threads do the same.
//!
//! `sharing_benchmark HALVINGS LOOKS OPENS [time]` has 2 threads for one halving, 4 for two, and so on up to 64. Each
//! looks LOOKS times while nothing is new, and loads a word as often, which is the least that a look can cost. Then
//! each opens a module that is loaded, and closes it again, OPENS times. With `time` it prints how long that took.
#![tactic(auto)]

ghost use Rattle.std.specs.Prelude.{◌≡◌, ◌≤◌, IfOk};
ghost use Rattle.std.specs.Thread.{IsSync};
ghost use Rattle.shared_tests.specs.Races.{IsReady};

use anyhow::{Context, Result, ensure};
use shared_modules::{Pass, Shared};
use shared_tests::start::{halve, started};
use std::alloc::Global;
use std::rt::Clock;
use std::sync::Wait;
use std::sync::atomic::{AtomicU64, Ordering};
use std::thread::{Threads, join};
use std::time::{Duration, Instant};
use std::{env, io};

/// What a thread does, and how often.
#[derive(Clone, Copy)]
enum Work {
    Look(u32),
    Load(u32),
    Open(u32),
}

/// Looks `times` times, and counts the looks that found something.
fn look(shared: &Shared, pass: &mut Pass, first: u32, count: u32, times: u32) -> u64
    requires { IsReady first count shared.now pass.old }
    ensures { IsReady first count shared.now pass.new }
{
    let mut found = 0_u64;
    for _ in 0..times {
        if shared.newer(pass) {
            found = found.wrapping_add(1);
        }
    }
    found
}

/// Loads a word `times` times, and counts the loads that found something.
fn load(word: &AtomicU64, times: u32) -> u64 {
    let mut found = 0_u64;
    for _ in 0..times {
        if word.load(Ordering::SeqCst) > 0 {
            found = found.wrapping_add(1);
        }
    }
    found
}

/// Opens and closes image 2 repeatedly, and counts the events of other threads.
fn open<R: Wait>(
    rt: &R,
    alloc: Global,
    shared: &Shared,
    pass: &mut Pass,
    first: u32,
    count: u32,
    times: u32,
) -> u64
    requires { IsReady first count shared.now pass.old }
    ensures { IsReady first count shared.now pass.new }
{
    let mut events = Vec::new(alloc);
    let mut others = 0_u64;
    for _ in 0..times {
        let _ = shared.open(rt, pass, first, 1, 2, &mut events);
        let _ = shared.close(rt, pass, first, 2, 2, &mut events);
        others = others.wrapping_add(events.len() as u64);
        events.clear();
    }
    others
}

/// Thread 1 opens image 2, which stays loaded.
fn keep_loaded<R: Wait>(rt: &R, alloc: Global, shared: &Shared, pass: &mut Pass)
    requires { IsReady 1 64 shared.now pass.old }
    ensures { IsReady 1 64 shared.now pass.new }
{
    let _ = shared.open(rt, pass, 1, 1, 2, &mut Vec::new(alloc));
}

fn carry_out<R: Wait>(
    rt: &R,
    alloc: Global,
    shared: &Shared,
    word: &AtomicU64,
    mut pass: Pass,
    first: u32,
    count: u32,
    job: Work,
) -> (Pass, u64)
    requires { IsReady first count shared.now pass }
    ensures { IsReady first count shared.now result.0 }
{
    match job {
        Work::Look(times) => {
            let found = look(shared, &mut pass, first, count, times);
            (pass, found)
        }
        Work::Load(times) => (pass, load(word, times)),
        Work::Open(times) => {
            let others = open(rt, alloc, shared, &mut pass, first, count, times);
            (pass, others)
        }
    }
}

/// Halves the pass repeatedly, and lets a thread work with each part.
#[cycle(parts)]
fn parts<R: Threads + Wait + Sync>(
    rt: &R,
    alloc: Global,
    shared: &Shared,
    word: &AtomicU64,
    pass: Pass,
    first: u32,
    count: u32,
    halvings: u32,
    job: Work,
) -> (Pass, u64)
    requires { IsReady first count shared.now pass }
    ensures { IsReady first count shared.now result.0 }
{
    if count < 2 || halvings == 0 {
        return carry_out(rt, alloc, shared, word, pass, first, count, job);
    }
    let half = (count + 1) / 2;
    let next = first + half;
    let others = count - half;
    let more = halvings - 1;
    let (left, right) = halve(shared, pass, first, count);
    let ((left, a), (right, b)) = join(
        rt,
        move || -> (Pass, u64)
            requires sync { IsSync R.row }
            requires ready { IsReady first half shared.now left }
            ensures { IsReady first half shared.entry.now result.0 }
        { parts(rt, alloc, shared, word, left, first, half, more, job) },
        move || -> (Pass, u64)
            requires sync { IsSync R.row }
            requires ready { IsReady next others shared.now right }
            ensures { IsReady next others shared.entry.now result.0 }
        { parts(rt, alloc, shared, word, right, next, others, more, job) },
    );
    (shared.join(left, right), a.wrapping_add(b))
}

/// Lets each thread do its work, and returns how long that took.
fn timed<R: Threads + Wait + Clock + Sync>(
    rt: &R,
    alloc: Global,
    shared: &Shared,
    pass: Pass,
    halvings: u32,
    job: Work,
) -> io::Result<(Pass, u64, Duration)>
    requires { IsReady 1 64 shared.now pass }
    ensures { IfOk result (λ r. IsReady 1 64 shared.now r.0) }
{
    let word = AtomicU64::new(0);
    let start = Instant::now(rt)?;
    let (pass, count) = parts(rt, alloc, shared, &word, pass, 1, 64, halvings, job);
    Ok((pass, count, start.elapsed(rt)?))
}

fn main(rt: HostRuntime) -> Result<()> {
    let mut words = env::args(&rt)?.skip(1);
    let halvings: u32 = words.next().context("how many halvings")?.parse()?;
    let looks: u32 = words.next().context("how many looks")?.parse()?;
    let opens: u32 = words.next().context("how many opens")?.parse()?;
    ensure!(
        halvings <= 6 && opens <= 100_000,
        "0 to 6 halvings, up to 100,000 opens"
    );
    let alloc = rt.alloc();
    let (shared, mut pass) = started(alloc)?;
    keep_loaded(&rt, alloc, &shared, &mut pass);
    let (pass, found, looking) = timed(&rt, alloc, &shared, pass, halvings, Work::Look(looks))?;
    let (pass, _, loading) = timed(&rt, alloc, &shared, pass, halvings, Work::Load(looks))?;
    let (pass, _, opening) = timed(&rt, alloc, &shared, pass, halvings, Work::Open(opens))?;
    let threads = 1_u64 << halvings;
    println!(rt;
        "{threads} threads: {found} looks found something, {} events",
        pass.seen()
    )?;
    if words.next().is_some() {
        println!(rt;
            "looks in {looking:?}, as many plain loads in {loading:?}, opens and closes in {opening:?}"
        )?;
    }
    Ok(())
}
