//! `check`: whether a job whose images all link is clean.
ghost use Rattle.std.specs.Prelude.{◌≡◌, List, IfOk};
ghost use Rattle.command_replies.specs.Faults.{NoStoreFault};
ghost use Rattle.command_replies.specs.Steps.{Comes};
ghost use Rattle.commands.specs.Checks.{VerdictSays, verdict};
ghost use Rattle.commands.specs.InOrder.{AreLinked};
ghost use Rattle.job_link.specs.Given.{Given};

use command_replies::{CommandFault, Reply, Status};
use job_check::{check_job, verdict_text};
use job_link::inputs_of;
use job_text::Job;
use link_core::ReadyLink;
use meant_images::MeantImages;
use std::alloc::{AllocError, Global};
use whole_meaning::UncleanStep;

/// The first unclean step of the lowest thread that makes one, or `None`. The job's images link; the meaning needs no
/// field that a linker fills.
fn verdict_of(
    alloc: Global,
    job: &Job,
    ready: Vec<ReadyLink>,
) -> Result<Option<UncleanStep>, AllocError>
    requires { (images : List Given) × AreLinked job.now images ready.items }
    ensures { IfOk result (λ found. found ≡ verdict job.now ready.entry.items) }
{
    let inputs = inputs_of(alloc, ready)?;
    let meant = MeantImages::new(alloc, inputs.as_slice())?;
    check_job(alloc, job, &meant)
}

/// The line `clean`, or a refusal with the first unclean step.
pub fn verdict_line(
    alloc: Global,
    job: &Job,
    ready: Vec<ReadyLink>,
) -> Result<Vec<u8>, CommandFault>
    requires { (images : List Given) × AreLinked job.now images ready.items }
    ensures says { Comes (λ text. text.items) (VerdictSays job.now ready.entry.items) result }
    ensures cause { NoStoreFault result }
{
    let verdict = verdict_of(alloc, job, ready)?;
    let text = verdict_text(alloc, verdict)?.into_bytes();
    match verdict {
        None => Ok(text),
        Some(_) => Err(CommandFault::Refused(Reply {
            status: Status::Unclean,
            text,
        })),
    }
}
