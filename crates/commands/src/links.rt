//! `link`: puts an image into a file.
ghost use Rattle.std.specs.Prelude.{◌≡◌, Some, IfSome, OnErr};
ghost use Rattle.command_replies.specs.Faults.{StoreCounts};
ghost use Rattle.command_replies.specs.Steps.{Asks, Comes};
ghost use Rattle.commands.specs.Jobs.{asked_names};
ghost use Rattle.commands.specs.Links.{Leaves, LinkSays};
ghost use Rattle.commands.specs.Untold.{HasJobStatus, Over};

use crate::purpose::{Purpose, Put};
use crate::told::told;
use command_line::Rewriting;
use command_replies::CommandFault;
use ports::Store;
use std::alloc::Global;
use std::thread::Threads;

/// `link JOB IMAGE OUT`: puts the image into the file OUT, and says how long it is.
pub fn link<R: Threads + Sync, S: Store>(
    rt: &R,
    alloc: Global,
    store: &mut S,
    job: &str,
    put: Put,
    rewriting: Rewriting,
) -> Result<Vec<u8>, CommandFault>
    ensures files { Leaves (S.files store.old) (S.files store.new)
        (λ fs. LinkSays fs (S.files store.new) job.now put.entry.image.now put.entry.out.now rewriting) }
    ensures kept { OnErr result (S.files store.new ≡ S.files store.old) }
    ensures cause { StoreCounts (S.faults store.old) (S.faults store.new) result }
    ensures says { IfSome (S.files store.old) (λ fs. Comes (λ text. text.items)
        (LinkSays fs (S.files store.new) job.now put.entry.image.now put.entry.out.now rewriting) result) }
    ensures own { Comes (λ text. text.items) (λ own text. HasJobStatus ⊥ own) result }
    ensures asks { Over (S.files store.old) (λ fs. Asks (asked_names fs job.now (Some put.entry.image.now))
        (S.asked store.old) (S.asked store.new) result) }
    ensures out { S.out store.new ≡ S.out store.old }
{
    told(rt, alloc, store, job, rewriting, Purpose::File(put))
}
