//! The threads of a job, each of which can be run.

ghost use Rattle.std.specs.Prelude.{◌≡◌, ◌≤◌, IfOk, length};
ghost use Rattle.job_text.specs.Jobs.{JobParts};
ghost use Rattle.loaded_modules.specs.Images.{JobImages};
ghost use Rattle.job_race.specs.Rows.{CanRace, HasRow, IsReady};

use crate::row::Row;
use racing_thread::{Course, Gate, race_thread};
use shared_modules::{Pass, Shared};
use std::alloc::{AllocError, Global};
use std::sync::Wait;

/// Runs the threads of a job over its images, one by one. It is a trait because `thread::join` states what a closure
/// ensures only if nothing that it holds names a lifetime, as `JobNames` does; a type parameter names none.
pub(crate) trait Racers {
    ghost all_images: { Self → JobImages };

    ghost whole_job: { Self → JobParts };

    /// The number of threads that the job has.
    fn threads(&self) -> u32
        ensures { result ≡ length (whole_job self.now).lines };

    /// Runs a thread of the job to its end.
    fn race<R: Wait>(
        &self,
        rt: &R,
        alloc: Global,
        shared: &Shared,
        pass: Pass,
        thread: u32,
    ) -> (Pass, Result<Row, AllocError>)
        requires can { CanRace (all_images self.now) thread 1 shared.now pass }
        requires there { thread ≤ length (whole_job self.now).lines }
        ensures ready { IsReady thread 1 shared.now result.0 }
        ensures raced { IfOk result.1 (HasRow (all_images self.now) (whole_job self.now) thread 1 pass result.0) };
}

impl<'j, 'n, 'm, 'g, G: Gate> Racers for Course<'j, 'n, 'm, 'g, G> {
    ghost all_images = { λ course. course.names.now };

    ghost whole_job = { λ course. course.job.now };

    fn threads(&self) -> u32 {
        self.job.threads()
    }

    fn race<R: Wait>(
        &self,
        rt: &R,
        alloc: Global,
        shared: &Shared,
        pass: Pass,
        thread: u32,
    ) -> (Pass, Result<Row, AllocError>) {
        race_one(rt, alloc, self, shared, pass, thread)
    }
}

/// Runs a thread of the job.
fn race_one<R: Wait, G: Gate>(
    rt: &R,
    alloc: Global,
    course: &Course<'_, '_, '_, '_, G>,
    shared: &Shared,
    pass: Pass,
    thread: u32,
) -> (Pass, Result<Row, AllocError>)
    requires can { CanRace course.now.names.now thread 1 shared.now pass }
    requires there { thread ≤ length course.now.job.now.lines }
    ensures ready { IsReady thread 1 shared.now result.0 }
    ensures raced { IfOk result.1 (HasRow course.now.names.now course.now.job.now thread 1 pass result.0) }
{
    let (pass, raced) = race_thread(rt, alloc, course, shared, pass, thread);
    match raced {
        Ok(raced) => (pass, Row::of(alloc, raced)),
        Err(error) => (pass, Err(error)),
    }
}
