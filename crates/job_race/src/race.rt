//! A job's threads, all at once.

ghost use Rattle.std.specs.Prelude.{◌≡◌, [], false, All, IfOk, map};
ghost use Rattle.loaded_modules.specs.Images.{infos, last_offset};
ghost use Rattle.job_turns.specs.Alone.{has_data};
ghost use Rattle.lawful_points.specs.Raced.{IsRaced};
ghost use Rattle.shared_modules.specs.Views.{all_threads};
ghost use Rattle.thread_blocks.specs.JobLoads.{job_loads};
ghost use Rattle.transcript_text.specs.Texts.{IsImageNumber};
ghost use Rattle.job_race.specs.Rows.{CountsLooks};

use crate::row::transcript_of;
use crate::rows::{Span, race_threads};
use job_text::Job;
use loaded_modules::Modules;
use racing_thread::{Course, Gate};
use shared_modules::{Pass, Shared};
use std::alloc::{AllocError, Global};
use std::sync::Wait;
use std::thread::Threads;
use thread_space::JobNames;
use transcript_text::Transcript;

/// All threads that a job can have.
const ALL: Span = Span {
    first: 1,
    count: 64,
};

/// Runs all threads of a job at once over its images, and returns their lines and the history that they made. The pass
/// is that of all threads before and after. The gate is called before and after each line of each thread. The only
/// error is out of memory, which stops no other thread.
///
/// No image may have data that programs write, since each thread runs as if it were alone.
pub fn race_job<R: Threads + Wait + Sync, G: Gate + Sync>(
    rt: &R,
    alloc: Global,
    job: &Job,
    modules: &Modules,
    shared: &Shared,
    pass: Pass,
    gate: &G,
) -> (Pass, Result<Transcript, AllocError>)
    requires of { pass.shared ≡ shared.now }
    requires all { pass.threads ≡ all_threads }
    requires fresh { pass.seen ≡ [] }
    requires images { shared.now.images ≡ record { infos = infos modules.now; last_offset = last_offset modules.now } }
    requires job { modules.now.kinds ≡ map (λ image. image.kind) job.now.images }
    requires alone { has_data modules.now ≡ false }
    ensures whole { (result.0.shared ≡ shared.now) × (result.0.threads ≡ all_threads) }
    ensures raced { IfOk result.1 (IsRaced (job_loads modules.now) job.now.fuel job.now.lines) }
    ensures history { IfOk result.1 (λ shown. shown.events ≡ result.0.seen) }
    ensures looks { IfOk result.1 (λ shown. CountsLooks job.now.lines shown pass result.0) }
    ensures named { IfOk result.1 (λ shown. All (λ event. IsImageNumber job.now.images event.image) shown.events) }
{
    let Ok(names) = JobNames::new(alloc, modules) else {
        return (pass, Err(AllocError));
    };
    let course = Course {
        job,
        names: &names,
        gate,
    };
    let (pass, row) = race_threads(rt, alloc, &course, shared, pass, ALL);
    let Course {
        job: _,
        names: _,
        gate: _,
    } = course;
    pass.history_is_lawful();
    job.keeps_limits();
    let transcript = transcript_of(alloc, row);
    (pass, transcript)
}
