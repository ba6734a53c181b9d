//! The threads of a job, before their first turns and after their last ones.

ghost use Rattle.std.specs.Prelude.{◌≡◌, ◌≤◌, IfOk, length};
ghost use Rattle.job_turns.specs.Transcripts.{transcript_of};
ghost use Rattle.job_turns.specs.Progress.{IsFirst};
ghost use Rattle.thread_turns.specs.Orders.{progress};

use crate::runner::Runner;
use crate::turning::Common;
use job_text::Job;
use loaded_modules::Modules;
use module_data::Data;
use module_table::Registry;
use std::alloc::{AllocError, Global};
use thread_space::JobNames;
use thread_turns::Threads;
use transcript_text::Transcript;

/// The threads of a job before their first turns.
pub(crate) fn first_threads<'j, 'n, 'm>(
    alloc: Global,
    job: &'j Job,
    modules: &Modules,
    names: &'n JobNames<'m>,
) -> Result<Threads<Common, Runner<'j, 'n, 'm>>, AllocError>
    requires { names.now ≡ modules.now }
    ensures first { IfOk result (λ x. IsFirst modules.now job.now (progress x)) }
    ensures few { IfOk result (λ x. length x.threads.items ≤ 64) }
{
    let registry = Registry::new(alloc, modules.infos(), modules.last_offset())?;
    registry.history_is_lawful();
    let pieces = Data::new(alloc, modules)?;
    let mut threads = Vec::new(alloc);
    for thread in 1..job.threads() + 1 {
        threads.push(Runner::new(alloc, thread, job, names)?)?;
    }
    let shared = Common { registry, pieces };
    Ok(Threads { shared, threads })
}

/// The threads' lines, and the history.
pub(crate) fn transcript<'j, 'n, 'm>(
    alloc: Global,
    all: Threads<Common, Runner<'j, 'n, 'm>>,
) -> Result<Transcript, AllocError>
    requires { length all.threads.items ≤ 64 }
    ensures { IfOk result (λ transcript. transcript ≡ transcript_of (progress all.entry)) }
{
    let Threads { shared, threads } = all;
    let mut transcript = Transcript::new(alloc);
    for runner in threads {
        transcript.push_thread(runner.lines())?;
    }
    for event in shared.registry.since(0) {
        transcript.push_event(*event)?;
    }
    Ok(transcript)
}
