//! Rows of threads that run at once, each split in halves.

ghost use Rattle.std.specs.Prelude.{◌≡◌, ◌≤◌, ◌+◌, ◌-◌, ◌/◌, IfOk};
ghost use Rattle.std.specs.Thread.{IsSync};
ghost use Rattle.shared_modules.specs.Passes.{left_pass, right_pass};
ghost use Rattle.job_race.specs.Rows.{CanRace, HasRow, IsReady};

use crate::racers::Racers;
use crate::row::{Row, together};
use shared_modules::{Pass, Shared};
use std::alloc::{AllocError, Global};
use std::sync::Wait;
use std::thread::{Threads, join};

/// The numbers of a row's threads: `count` from `first` on.
#[derive(Clone, Copy)]
pub(crate) struct Span {
    pub(crate) first: u32,
    pub(crate) count: u32,
}

/// Gives the first half of a row's threads to one pass.
fn halve(shared: &Shared, pass: Pass, span: Span) -> (Pass, Pass)
    requires ready { IsReady span.first span.count shared.now pass }
    requires two { 2 ≤ span.count }
    ensures { result ≡ (left_pass pass, right_pass pass) }
{
    shared.split(pass)
}

/// Runs the threads with these numbers, each in a thread of the host. Those that the job does not have do nothing.
#[cycle(rows)]
pub(crate) fn race_threads<R: Threads + Wait + Sync, T: Racers + Sync>(
    rt: &R,
    alloc: Global,
    racers: &T,
    shared: &Shared,
    pass: Pass,
    span: Span,
) -> (Pass, Result<Row, AllocError>)
    requires can { CanRace (T.all_images racers.now) span.first span.count shared.now pass }
    ensures ready { IsReady span.first span.count shared.now result.0 }
    ensures raced { IfOk result.1
        (HasRow (T.all_images racers.now) (T.whole_job racers.now) span.first span.count pass result.0) }
{
    let Span { first, count } = span;
    if first > racers.threads() {
        return (pass, Ok(Row::none(alloc)));
    }
    if count == 1 {
        return racers.race(rt, alloc, shared, pass, first);
    }
    let half = (count + 1) / 2;
    let front = Span { first, count: half };
    let rest = Span {
        first: first + half,
        count: count - half,
    };
    let (left, right) = halve(shared, pass, span);
    let ((left, some), (right, more)) = join(
        rt,
        move || -> (Pass, Result<Row, AllocError>)
            requires sync { IsSync R.row }
            requires racers { IsSync T.row }
            requires can { CanRace (T.all_images racers.now) front.first front.count shared.now left }
            ensures ready { IsReady front.first front.count shared.entry.now result.0 }
            ensures raced { IfOk result.1
                (HasRow (T.all_images racers.entry.now) (T.whole_job racers.entry.now)
                front.first front.count left result.0) }
        { race_threads(rt, alloc, racers, shared, left, front) },
        move || -> (Pass, Result<Row, AllocError>)
            requires sync { IsSync R.row }
            requires racers { IsSync T.row }
            requires can { CanRace (T.all_images racers.now) rest.first rest.count shared.now right }
            ensures ready { IsReady rest.first rest.count shared.entry.now result.0 }
            ensures raced { IfOk result.1
                (HasRow (T.all_images racers.entry.now) (T.whole_job racers.entry.now)
                rest.first rest.count right result.0) }
        { race_threads(rt, alloc, racers, shared, right, rest) },
    );
    let pass = shared.join(left, right);
    let row = together(some, more);
    (pass, row)
}
