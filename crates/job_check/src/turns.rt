//! The threads of a job, before their first turns and after their last ones.

ghost use Rattle.std.specs.Prelude.{◌≡◌, [], IfOk};
ghost use Rattle.module_table.specs.Past.{start};
ghost use Rattle.thread_turns.specs.Orders.{progress};
ghost use Rattle.whole_meaning.specs.Loads.{meaning_of};
ghost use Rattle.job_check.specs.Histories.{IsHistory, infos_of, last_of};
ghost use Rattle.job_check.specs.Progress.{IsFirst, first_unclean};
ghost use Rattle.thread_blocks.specs.JobWorlds.{first_data};

use crate::live::live_instances;
use crate::thread::{Common, MeantThread};
use job_text::Job;
use marked_memory::{OwnedRange, Written};
use meant_images::MeantImages;
use module_table::ModuleTable;
use std::alloc::{AllocError, Global};
use thread_turns::Threads;
use whole_meaning::UncleanStep;

/// The data before the first turn: those of the images that start with the program.
fn first_data(
    alloc: Global,
    images: &MeantImages,
    table: &ModuleTable,
) -> Result<Vec<OwnedRange>, AllocError>
    requires legal { IsHistory images.now [] }
    requires start { table.now ≡ start (infos_of images.now) (last_of images.now) }
    ensures { IfOk result (λ shared. shared.items ≡ first_data (meaning_of images.now).loads) }
{
    let live = live_instances(alloc, images, table)?;
    let mut shared = Vec::new(alloc);
    for instance in &live {
        if let Some(range) = images.fresh_data(alloc, instance)? {
            shared.push(OwnedRange {
                kind: Written::Data,
                instance: instance.number,
                range,
            })?;
        }
    }
    Ok(shared)
}

/// The threads of a job before their first turns.
pub(crate) fn first_threads<'j, 'm>(
    alloc: Global,
    job: &'j Job,
    images: &'m MeantImages<'m>,
) -> Result<Threads<Common, MeantThread<'j, 'm>>, AllocError>
    ensures { IfOk result (λ x. IsFirst images.now job.now (progress x)) }
{
    let last_offset = images.static_offset(images.count());
    let table = ModuleTable::new(alloc, images.infos(), last_offset)?;
    let ranges = first_data(alloc, images, &table)?;
    let mut threads = Vec::new(alloc);
    for thread in 1..job.threads() + 1 {
        threads.push(MeantThread::new(alloc, thread, job, images, &table)?)?;
    }
    let shared = Common { table, ranges };
    Ok(Threads { shared, threads })
}

/// The first unclean step so far, of the lowest thread that made one.
pub(crate) fn verdict(threads: &[MeantThread]) -> Option<UncleanStep>
    ensures { result ≡ first_unclean threads.now }
{
    for thread in threads {
        if let Some(step) = thread.unclean() {
            return Some(step);
        }
    }
    None
}
