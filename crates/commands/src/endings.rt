//! The last step of each command, for a job whose images all link.
//!
//! The images are ready to be written, and no byte of them is laid. `run` writes them all; `link` puts one, whose bytes
//! are made piece by piece as the store asks for them; and `check` and `sites` write none.
ghost use Rattle.std.specs.Prelude.{◌≡◌, IfOk, Some};
ghost use Rattle.command_replies.specs.Faults.{NoStoreFault, StoreCounts};
ghost use Rattle.command_replies.specs.Steps.{Comes};
ghost use Rattle.commands.specs.InOrder.{AreLinked};
ghost use Rattle.commands.specs.Links.{FilesAfter, IsPut, linked_text};
ghost use Rattle.commands.specs.Purposes.{IsWithin, Makes, puts};
ghost use Rattle.commands.specs.RunJobs.{IsRun};
ghost use Rattle.commands.specs.Runs.{HasRun};
ghost use Rattle.standing_sequences.specs.Laws.{IsLinked};

use crate::checks::verdict_line;
use crate::purpose::{Ending, Put};
use crate::runs::{are_of_few, told_run};
use crate::site_lines::image_lines;
use crate::telling::Telling;
use command_replies::CommandFault;
use job_link::ImageObjects;
use job_text::Job;
use link_core::ReadyLink;
use ports::Store;
use standing_sequences::linked_images_hold_the_table;
use std::alloc::{AllocError, Global};
use std::thread::Threads;

/// A job with the objects of its images, all of which are ready to be written.
#[derive(Drop)]
pub struct LinkedJob<'j, 'i, 'a> {
    pub job: &'j Job,
    pub images: &'i [ImageObjects<'a>],
    pub ready: Vec<ReadyLink<'i, 'i, 'a>>,
}

/// Ends the command for a job whose images are ready: returns its output, or a refusal.
pub fn ended<R: Threads + Sync, S: Store>(
    rt: &R,
    alloc: Global,
    store: &mut S,
    linked: LinkedJob,
    ending: Ending,
) -> Result<Vec<u8>, CommandFault>
    requires linked { AreLinked linked.job.now linked.images.now linked.ready.items }
    requires place { IsWithin ending linked.job.now }
    ensures files { FilesAfter (puts ending.entry) (S.files store.old) (S.files store.new) result }
    ensures cause { StoreCounts (S.faults store.old) (S.faults store.new) result }
    ensures says { Comes (λ text. text.items)
        (Makes ending.entry (S.files store.old) (S.files store.new)
        linked.entry.job.now linked.entry.ready.items) result }
    ensures asked { S.asked store.new ≡ S.asked store.old }
    ensures out { S.out store.new ≡ S.out store.old }
{
    let LinkedJob { job, images, ready } = linked;
    match ending {
        Ending::Run(telling) => run(rt, alloc, job, images, ready, telling),
        Ending::Check => verdict_line(alloc, job, ready),
        Ending::File { place, put } => put_image(rt, alloc, store, &ready[place], put),
        Ending::Sites { place } => Ok(image_lines(alloc, job, images, ready, place)?),
    }
}

/// Runs the job, and returns the text of the run.
fn run<R: Threads + Sync>(
    rt: &R,
    alloc: Global,
    job: &Job,
    images: &[ImageObjects],
    ready: Vec<ReadyLink>,
    telling: Telling,
) -> Result<Vec<u8>, CommandFault>
    requires { AreLinked job.now images.now ready.items }
    ensures says { Comes (λ text. text.items) (IsRun HasRun telling job.now ready.entry.items) result }
    ensures cause { NoStoreFault result }
{
    if are_of_few(images) {
        Ok(told_run(rt, alloc, job, ready, telling)?)
    } else {
        Err(CommandFault::OutOfMemory)
    }
}

/// Puts the image of this link, and returns the line that says so. The put comes last: where it or a step before it
/// fails, the files are as before.
fn put_image<R: Threads + Sync, S: Store>(
    rt: &R,
    alloc: Global,
    store: &mut S,
    link: &ReadyLink,
    put: Put,
) -> Result<Vec<u8>, CommandFault>
    requires linked { IsLinked link.now }
    ensures files { FilesAfter (Some put.entry.out.now) (S.files store.old) (S.files store.new) result }
    ensures cause { StoreCounts (S.faults store.old) (S.faults store.new) result }
    ensures says { Comes (λ text. text.items) (IsPut (S.files store.old) (S.files store.new)
        put.entry.image.now put.entry.out.now link.now) result }
    ensures asked { S.asked store.new ≡ S.asked store.old }
    ensures out { S.out store.new ≡ S.out store.old }
{
    linked_images_hold_the_table();
    let pieces = link.pieces(rt, alloc)?;
    let line = linked_line(alloc, put.image, pieces.size())?;
    store.put_pieces(put.out, &pieces)?;
    Ok(line)
}

/// The line for an image that is put, with its length.
fn linked_line(alloc: Global, image: &str, size: usize) -> Result<Vec<u8>, AllocError>
    ensures { IfOk result (λ text. text.items ≡ linked_text image.now size) }
{
    Ok(format!(in alloc; "linked {image} {size}\n")?.into_bytes())
}
