//! `race`: runs a job's threads at once.
//!
//! The steps up to images that all link are those of `run` (`told`), but objects with data for programs to write are
//! refused: threads that run at once would all write the same bytes. The steps stand here once more, since those of
//! `run` may be called by callers that allow no waiting. The job's `order` lines are read, and have no effect.
//! `race_runs` runs the threads.
ghost use Rattle.std.specs.Prelude.{◌≡◌, ℕ, List, All, IfSome, None, map};
ghost use Rattle.command_line.specs.Rewritings.{is_allowed};
ghost use Rattle.command_replies.specs.Faults.{NoStoreFault, StoreCounts};
ghost use Rattle.command_replies.specs.Steps.{Asks, Comes};
ghost use Rattle.commands.specs.InOrder.{AreInOrder, AreLinked};
ghost use Rattle.commands.specs.Jobs.{BytesSay, FileSays, ImagesSay, JobSays, asked_names, job_names};
ghost use Rattle.commands.specs.Purposes.{IsRace};
ghost use Rattle.commands.specs.Untold.{HasJobStatus, Over};
ghost use Rattle.job_link.specs.declared.writable.WritableSections.TheVariants.{Refused};
ghost use Rattle.job_link.specs.Given.{Allows, AreGiven};
ghost use Rattle.job_link.specs.Mentions.{bytes_in};
ghost use Rattle.job_text.specs.Jobs.{job_of as job_of_text};
ghost use Rattle.elf_records.specs.FieldLaws.{AreBytes};

use crate::laws::images_are_in_order;
use crate::race_runs::told_race;
use crate::runs::are_of_few;
use command_line::Rewriting;
use command_replies::{CommandFault, job_of, link_refusal, object_refusal, whole_file};
use job_link::{
    Files, ImageObjects, WritableSections, fetch_objects, prepare_images, read_objects,
    startup_exports,
};
use job_text::Job;
use link_core::ReadyLink;
use ports::Store;
use std::alloc::Global;
use std::sync::Wait;
use std::thread::Threads;

/// `race JOB [--no-relax]`: runs the job's threads at once, each in a thread of its own.
pub fn raced<R: Threads + Wait + Sync, S: Store>(
    rt: &R,
    alloc: Global,
    store: &mut S,
    name: &str,
    rewriting: Rewriting,
) -> Result<Vec<u8>, CommandFault>
    ensures files { S.files store.new ≡ S.files store.old }
    ensures cause { StoreCounts (S.faults store.old) (S.faults store.new) result }
    ensures says { IfSome (S.files store.old) (λ fs. Comes (λ text. text.items)
        (FileSays None IsRace (is_allowed rewriting) Refused fs name.now) result) }
    ensures own { Comes (λ text. text.items) (λ own text. HasJobStatus ⊥ own) result }
    ensures asks { Over (S.files store.old) (λ fs. Asks (asked_names fs name.now None)
        (S.asked store.old) (S.asked store.new) result) }
    ensures out { S.out store.new ≡ S.out store.old }
{
    match whole_file(alloc, store, name) {
        Ok(text) => raced_of_text(rt, alloc, store, text.as_slice(), rewriting),
        Err(fault) => Err(fault),
    }
}

/// Races the job of a text.
fn raced_of_text<R: Threads + Wait + Sync, S: Store>(
    rt: &R,
    alloc: Global,
    store: &mut S,
    text: &[u8],
    rewriting: Rewriting,
) -> Result<Vec<u8>, CommandFault>
    ensures files { S.files store.new ≡ S.files store.old }
    ensures cause { StoreCounts (S.faults store.old) (S.faults store.new) result }
    ensures says { IfSome (S.files store.old) (λ fs. Comes (λ text. text.items)
        (JobSays None IsRace (is_allowed rewriting) Refused fs (job_of_text text.now)) result) }
    ensures own { Comes (λ text. text.items) (λ own text. HasJobStatus ⊥ own) result }
    ensures asks { Asks (job_names None (job_of_text text.now)) (S.asked store.old) (S.asked store.new) result }
    ensures out { S.out store.new ≡ S.out store.old }
{
    images_are_in_order();
    match job_of(alloc, text) {
        Ok(job) => {
            job.keeps_limits();
            let files = fetch_objects(rt, alloc, store, &job)?;
            raced_of_files(rt, alloc, &job, &files, rewriting)
        }
        Err(fault) => Err(fault),
    }
}

/// Races a job with these files. None of its objects may have data that programs write.
fn raced_of_files<R: Threads + Wait + Sync>(
    rt: &R,
    alloc: Global,
    job: &Job,
    files: &Files,
    rewriting: Rewriting,
) -> Result<Vec<u8>, CommandFault>
    requires order { AreInOrder (map (λ image. image.kind) job.now.images) }
    ensures says { Comes (λ text. text.items)
        (BytesSay IsRace (is_allowed rewriting) Refused (bytes_in files.now) job.now) result }
    ensures cause { NoStoreFault result }
{
    files.are_bytes();
    match read_objects(rt, alloc, job, files, WritableSections::Refused) {
        Ok(images) => raced_of_images(rt, alloc, job, images.as_slice(), rewriting),
        Err(refusal) => {
            let reply = object_refusal(alloc, refusal.name, refusal.fault)?;
            Err(CommandFault::Refused(reply))
        }
    }
}

/// Races a job with these images.
fn raced_of_images<R: Threads + Wait + Sync>(
    rt: &R,
    alloc: Global,
    job: &Job,
    images: &[ImageObjects],
    rewriting: Rewriting,
) -> Result<Vec<u8>, CommandFault>
    requires given { (bytes : List ℕ → List ℕ) × AreGiven bytes job.now images.now
        × ((name : List ℕ) → AreBytes (bytes name)) }
    requires order { AreInOrder (map (λ image. image.kind) job.now.images) }
    requires allowed { All (λ image. All (Allows Refused) image.objects) images.now }
    ensures says { Comes (λ text. text.items) (ImagesSay IsRace (is_allowed rewriting) job.now images.now) result }
    ensures cause { NoStoreFault result }
{
    job.keeps_limits();
    let startup = startup_exports(alloc, images)?;
    match prepare_images(
        rt,
        alloc,
        images,
        startup.as_slice(),
        rewriting.is_allowed(),
    ) {
        Ok(ready) => race_ready(rt, alloc, job, images, ready),
        Err(refusal) => {
            let reply = link_refusal(alloc, job, refusal.number, refusal.fault)?;
            Err(CommandFault::Refused(reply))
        }
    }
}

/// Races a job whose images are ready to be written.
fn race_ready<R: Threads + Wait + Sync>(
    rt: &R,
    alloc: Global,
    job: &Job,
    images: &[ImageObjects],
    ready: Vec<ReadyLink>,
) -> Result<Vec<u8>, CommandFault>
    requires linked { AreLinked job.now images.now ready.items }
    requires allowed { All (λ image. All (Allows Refused) image.objects) images.now }
    ensures says { Comes (λ text. text.items) (IsRace job.now ready.entry.items) result }
    ensures cause { NoStoreFault result }
{
    if are_of_few(images) {
        Ok(told_race(rt, alloc, job, ready)?)
    } else {
        Err(CommandFault::OutOfMemory)
    }
}
