//! Runs a job with marked bytes and finds its first unclean step.

ghost use Rattle.std.specs.Prelude.{◌≡◌, IfOk};
ghost use Rattle.whole_meaning.specs.Jobs.{lines_of, meant_world, verdict_of};
ghost use Rattle.whole_meaning.specs.Loads.{meaning_of};

use crate::turns::{first_threads, verdict};
use job_text::Job;
use meant_images::MeantImages;
use std::alloc::{AllocError, Global};
use whole_meaning::UncleanStep;

/// The first unclean step of the lowest thread that makes one, for a job over these images; `None` if the job is clean.
/// Fails only when memory runs out.
pub fn check_job(
    alloc: Global,
    job: &Job,
    images: &MeantImages,
) -> Result<Option<UncleanStep>, AllocError>
    ensures { IfOk result (λ verdict. verdict
        ≡ verdict_of (lines_of (meant_world (meaning_of images.now) job.now.fuel job.now.lines job.now.order))) }
{
    let mut threads = first_threads(alloc, job, images)?;
    threads.take_order(job.order())?;
    threads.finish(job)?;
    Ok(verdict(&threads.threads))
}
