//! All turns of a job.

ghost use Rattle.std.specs.Prelude.{◌≡◌, All, IfOk, map};
ghost use Rattle.thread_blocks.specs.JobLoads.{job_loads};
ghost use Rattle.thread_blocks.specs.JobWorlds.{Tells, job_world};
ghost use Rattle.transcript_text.specs.Texts.{IsImageNumber};

use crate::threads::{first_threads, transcript};
use job_text::Job;
use loaded_modules::Modules;
use std::alloc::{AllocError, Global};
use thread_space::JobNames;
use transcript_text::Transcript;

/// Runs all threads of a job over its images, and returns the transcript that the definitions give. The only error is
/// out of memory.
pub fn run_job(alloc: Global, job: &Job, modules: &Modules) -> Result<Transcript, AllocError>
    requires { modules.now.kinds ≡ map (λ image. image.kind) job.now.images }
    ensures transcript { IfOk result (λ transcript. Tells
        (job_world (job_loads modules.now) job.now.fuel job.now.lines job.now.order) transcript) }
    ensures images { IfOk result (λ transcript.
        All (λ event. IsImageNumber job.now.images event.image) transcript.events) }
{
    let names = JobNames::new(alloc, modules)?;
    let mut threads = first_threads(alloc, job, modules, &names)?;
    threads.take_order(job.order())?;
    threads.finish(job)?;
    transcript(alloc, threads)
}
