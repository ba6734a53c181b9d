//! The chain of steps of a command about a job, from its file to images that all link.
//!
//! `run`, `check`, `link` and `sites` take these steps, and so does `gen`, which begins with files that it
//! made. The command (`Purpose`) decides only the last step (`endings`). Each function returns the
//! command's output, or a refusal.
ghost use Rattle.std.specs.Prelude.{◌≡◌, ℕ, List, IfSome, Some, map};
ghost use Rattle.command_line.specs.Rewritings.{is_allowed};
ghost use Rattle.command_replies.specs.Faults.{StoreCounts};
ghost use Rattle.command_replies.specs.Steps.{Asks, Comes};
ghost use Rattle.commands.specs.InOrder.{AreInOrder};
ghost use Rattle.commands.specs.Jobs.{BytesSay, ImagesSay, ObjectsSay, asked_names, job_names};
ghost use Rattle.commands.specs.Links.{FilesAfter};
ghost use Rattle.commands.specs.Purposes.{FileTold, IsWithin, JobTold, Judges, JudgesAt, Makes, put_by, puts, wanted_by};
ghost use Rattle.commands.specs.Untold.{HasJobStatus, Over};
ghost use Rattle.job_link.specs.declared.writable.WritableSections.TheVariants.{Kept};
ghost use Rattle.job_link.specs.Given.{AreGiven};
ghost use Rattle.job_link.specs.Mentions.{bytes_in, object_names};
ghost use Rattle.job_text.specs.Jobs.{job_of as job_of_text};
ghost use Rattle.elf_records.specs.FieldLaws.{AreBytes};

use crate::endings::{LinkedJob, ended};
use crate::laws::images_are_in_order;
use crate::purpose::{Course, Purpose};
use command_line::Rewriting;
use command_replies::{
    CommandFault, job_of, job_refusal, link_refusal, object_refusal, whole_file,
};
use job_link::{
    Files, ImageObjects, WritableSections, fetch_objects, prepare_images, read_objects,
    startup_exports,
};
use job_text::Job;
use ports::Store;
use std::alloc::Global;
use std::thread::Threads;

/// Fetches the job in the file of that name, and goes on.
#[tactic(auto, using(crate::proofs::Kept::gives_up))]
pub fn told<R: Threads + Sync, S: Store>(
    rt: &R,
    alloc: Global,
    store: &mut S,
    name: &str,
    rewriting: Rewriting,
    purpose: Purpose,
) -> Result<Vec<u8>, CommandFault>
    ensures files { FilesAfter (put_by purpose.entry) (S.files store.old) (S.files store.new) result }
    ensures cause { StoreCounts (S.faults store.old) (S.faults store.new) result }
    ensures says { IfSome (S.files store.old) (λ fs. Comes (λ text. text.items)
        (FileTold purpose.entry rewriting fs (S.files store.new) name.now) result) }
    ensures own { Comes (λ text. text.items) (λ own text. HasJobStatus (Judges purpose.entry) own) result }
    ensures asks { Over (S.files store.old) (λ fs. Asks (asked_names fs name.now (wanted_by purpose.entry))
        (S.asked store.old) (S.asked store.new) result) }
    ensures out { S.out store.new ≡ S.out store.old }
{
    match whole_file(alloc, store, name) {
        Ok(text) => told_of_text(rt, alloc, store, text.as_slice(), rewriting, purpose),
        Err(fault) => Err(fault),
    }
}

/// Reads the job of a text, and goes on. An image that it does not have is refused before its objects are fetched.
#[tactic(auto, using(crate::proofs::Kept::gives_up))]
fn told_of_text<R: Threads + Sync, S: Store>(
    rt: &R,
    alloc: Global,
    store: &mut S,
    text: &[u8],
    rewriting: Rewriting,
    purpose: Purpose,
) -> Result<Vec<u8>, CommandFault>
    ensures files { FilesAfter (put_by purpose.entry) (S.files store.old) (S.files store.new) result }
    ensures cause { StoreCounts (S.faults store.old) (S.faults store.new) result }
    ensures says { IfSome (S.files store.old) (λ fs. Comes (λ text. text.items)
        (JobTold purpose.entry rewriting fs (S.files store.new) (job_of_text text.now)) result) }
    ensures own { Comes (λ text. text.items) (λ own text. HasJobStatus (Judges purpose.entry) own) result }
    ensures asks { Asks (job_names (wanted_by purpose.entry) (job_of_text text.now))
        (S.asked store.old) (S.asked store.new) result }
    ensures out { S.out store.new ≡ S.out store.old }
{
    images_are_in_order();
    match job_of(alloc, text) {
        Ok(job) => match purpose.ending(&job) {
            Ok(ending) => told_of_objects(rt, alloc, store, &job, Course { rewriting, ending }),
            Err(fault) => Err(CommandFault::Refused(job_refusal(alloc, fault)?)),
        },
        Err(fault) => Err(fault),
    }
}

/// Fetches the objects of a job, and goes on.
#[tactic(auto, using(crate::proofs::Kept::gives_up))]
fn told_of_objects<R: Threads + Sync, S: Store>(
    rt: &R,
    alloc: Global,
    store: &mut S,
    job: &Job,
    course: Course,
) -> Result<Vec<u8>, CommandFault>
    requires order { AreInOrder (map (λ image. image.kind) job.now.images) }
    requires place { IsWithin course.ending job.now }
    ensures files { FilesAfter (puts course.entry.ending) (S.files store.old) (S.files store.new) result }
    ensures cause { StoreCounts (S.faults store.old) (S.faults store.new) result }
    ensures says { IfSome (S.files store.old) (λ fs. Comes (λ text. text.items)
        (ObjectsSay (Makes course.entry.ending (Some fs) (S.files store.new)) (is_allowed course.entry.rewriting)
        Kept fs job.now) result) }
    ensures own { Comes (λ text. text.items) (λ own text. HasJobStatus (JudgesAt course.entry.ending) own) result }
    ensures asks { Asks (object_names job.now) (S.asked store.old) (S.asked store.new) result }
    ensures out { S.out store.new ≡ S.out store.old }
{
    job.keeps_limits();
    let files = fetch_objects(rt, alloc, store, job)?;
    told_of_files(rt, alloc, store, job, &files, course)
}

/// Reads these files of a job, and goes on.
#[tactic(auto, using(crate::proofs::Kept::gives_up))]
pub fn told_of_files<R: Threads + Sync, S: Store>(
    rt: &R,
    alloc: Global,
    store: &mut S,
    job: &Job,
    files: &Files,
    course: Course,
) -> Result<Vec<u8>, CommandFault>
    requires order { AreInOrder (map (λ image. image.kind) job.now.images) }
    requires place { IsWithin course.ending job.now }
    ensures files { FilesAfter (puts course.entry.ending) (S.files store.old) (S.files store.new) result }
    ensures cause { StoreCounts (S.faults store.old) (S.faults store.new) result }
    ensures says { Comes (λ text. text.items)
        (BytesSay (Makes course.entry.ending (S.files store.old) (S.files store.new))
        (is_allowed course.entry.rewriting) Kept (bytes_in files.now) job.now) result }
    ensures asked { S.asked store.new ≡ S.asked store.old }
    ensures out { S.out store.new ≡ S.out store.old }
{
    files.are_bytes();
    match read_objects(rt, alloc, job, files, WritableSections::Kept) {
        Ok(images) => told_of_images(rt, alloc, store, job, images.as_slice(), course),
        Err(refusal) => {
            let reply = object_refusal(alloc, refusal.name, refusal.fault)?;
            Err(CommandFault::Refused(reply))
        }
    }
}

/// Links these images of a job, and ends the command.
#[tactic(auto, using(crate::proofs::Kept::gives_up))]
fn told_of_images<R: Threads + Sync, S: Store>(
    rt: &R,
    alloc: Global,
    store: &mut S,
    job: &Job,
    images: &[ImageObjects],
    course: Course,
) -> Result<Vec<u8>, CommandFault>
    requires given { (bytes : List ℕ → List ℕ) × AreGiven bytes job.now images.now
        × ((name : List ℕ) → AreBytes (bytes name)) }
    requires order { AreInOrder (map (λ image. image.kind) job.now.images) }
    requires place { IsWithin course.ending job.now }
    ensures files { FilesAfter (puts course.entry.ending) (S.files store.old) (S.files store.new) result }
    ensures cause { StoreCounts (S.faults store.old) (S.faults store.new) result }
    ensures says { Comes (λ text. text.items)
        (ImagesSay (Makes course.entry.ending (S.files store.old) (S.files store.new))
        (is_allowed course.entry.rewriting) job.now images.now) result }
    ensures asked { S.asked store.new ≡ S.asked store.old }
    ensures out { S.out store.new ≡ S.out store.old }
{
    job.keeps_limits();
    let startup = startup_exports(alloc, images)?;
    match prepare_images(
        rt,
        alloc,
        images,
        startup.as_slice(),
        course.rewriting.is_allowed(),
    ) {
        Ok(ready) => {
            let linked = LinkedJob { job, images, ready };
            ended(rt, alloc, store, linked, course.ending)
        }
        Err(refusal) => {
            let reply = link_refusal(alloc, job, refusal.number, refusal.fault)?;
            Err(CommandFault::Refused(reply))
        }
    }
}
