//! Reads jobs.
ghost use Rattle.std.specs.Prelude.{◌≡◌, ◌-◌, ◌<◌, ◌+◌, Some, None, Ok, IfOk, IfErr, length};
ghost use Rattle.job_text.specs.Images.{image_number};
ghost use Rattle.job_text.specs.Jobs.{job_of as job_of_text};
ghost use Rattle.command_replies.specs.Faults.{NoStoreFault};
ghost use Rattle.command_replies.specs.Steps.{IsNoImage, IsNoJob};

use crate::fault::CommandFault;
use crate::refusal::job_refusal;
use job_text::{Job, JobFault, JobFaultKind, index_of};
use std::alloc::Global;

/// The job of a text.
pub fn job_of(alloc: Global, text: &[u8]) -> Result<Job, CommandFault>
    ensures job { IfOk result (λ job. job_of_text text.now ≡ Ok job) }
    ensures refused { IfErr result (IsNoJob (job_of_text text.now)) }
    ensures cause { NoStoreFault result }
{
    match Job::read(alloc, text) {
        Ok(job) => Ok(job),
        Err(fault) => Err(CommandFault::Refused(job_refusal(alloc, fault)?)),
    }
}

/// The place in image order, counted from 0, of the image with this name.
pub fn image_place(job: &Job, name: &str) -> Result<usize, JobFault>
    ensures place { IfOk result (λ place. image_number job.now.images name.now ≡ Some (place + 1)) }
    ensures within { IfOk result (λ place. place < length job.now.images) }
    ensures missing { IfErr result (IsNoImage (image_number job.now.images name.now)) }
{
    match job.number(name) {
        Some(number) => Ok(index_of(number)),
        None => Err(JobFault::At {
            line: 0,
            kind: JobFaultKind::Name,
        }),
    }
}
