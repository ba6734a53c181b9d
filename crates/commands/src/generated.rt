//! `gen N`: does what `run` does, for a job that it makes instead of fetching it.
//!
//! The job and its objects are made in memory, byte for byte as files would have them. From there on the command is
//! `run`: the same steps read the job and the objects, link, write, read back and run. The output is one line.
ghost use Rattle.std.specs.Prelude.{◌≡◌, ◌≤◌, IfOk, map, true};
ghost use Rattle.command_replies.specs.Faults.{StoreCounts};
ghost use Rattle.command_replies.specs.Steps.{Comes};
ghost use Rattle.job_link.specs.declared.writable.WritableSections.TheVariants.{Kept};
ghost use Rattle.job_link.specs.Mentions.{bytes_in};
ghost use Rattle.generated_job.specs.Generated.{generated_files};
ghost use Rattle.commands.specs.InOrder.{AreInOrder};
ghost use Rattle.commands.specs.GeneratedRuns.{GenSays};
ghost use Rattle.commands.specs.Jobs.{BytesSay};
ghost use Rattle.commands.specs.RunJobs.{IsRun};
ghost use Rattle.commands.specs.Runs.{HasRun};

use crate::laws::images_are_in_order;
use crate::purpose::{Course, Ending};
use crate::telling::Telling;
use crate::told::told_of_files;
use command_line::Rewriting;
use command_replies::{CommandFault, job_of};
use generated_job::{GeneratedFile, generated_objects, generated_text};
use generated_laws::links::generated_objects_link;
use generated_laws::objects::generated_objects_are_faultless;
use generated_laws::texts::generated_texts_are_jobs;
use job_link::Files;
use job_text::Job;
use ports::Store;
use std::alloc::{AllocError, Global};
use std::thread::Threads;

/// `gen N`, for `count` objects, from 1 to 1,000: the line about its run.
pub fn generated<R: Threads + Sync, S: Store>(
    rt: &R,
    alloc: Global,
    store: &mut S,
    count: u32,
) -> Result<Vec<u8>, CommandFault>
    requires some { 1 ≤ count }
    requires few { count ≤ 1000 }
    ensures files { S.files store.new ≡ S.files store.old }
    ensures cause { StoreCounts (S.faults store.old) (S.faults store.new) result }
    ensures says { Comes (λ text. text.items) (GenSays count) result }
    ensures asked { S.asked store.new ≡ S.asked store.old }
    ensures out { S.out store.new ≡ S.out store.old }
{
    images_are_in_order();
    generated_texts_are_jobs();
    generated_objects_are_faultless();
    generated_objects_link();
    let text = generated_text(alloc, count)?;
    match job_of(alloc, text.as_slice()) {
        Ok(job) => run_generated(rt, alloc, store, &job, count),
        Err(fault) => Err(fault),
    }
}

/// The line about the run of this job over generated objects.
fn run_generated<R: Threads + Sync, S: Store>(
    rt: &R,
    alloc: Global,
    store: &mut S,
    job: &Job,
    count: u32,
) -> Result<Vec<u8>, CommandFault>
    requires some { 1 ≤ count }
    requires few { count ≤ 1000 }
    requires order { AreInOrder (map (λ image. image.kind) job.now.images) }
    ensures files { S.files store.new ≡ S.files store.old }
    ensures cause { StoreCounts (S.faults store.old) (S.faults store.new) result }
    ensures says { Comes (λ text. text.items)
        (BytesSay (IsRun HasRun (Telling.Summary count)) true Kept (bytes_in (generated_files count)) job.now) result }
    ensures asked { S.asked store.new ≡ S.asked store.old }
    ensures out { S.out store.new ≡ S.out store.old }
{
    let objects = generated_objects(alloc, count)?;
    let files = files_of(alloc, objects.as_slice())?;
    let course = Course {
        rewriting: Rewriting::Allowed,
        ending: Ending::Run(Telling::Summary { count }),
    };
    told_of_files(rt, alloc, store, job, &files, course)
}

/// These files, as if they had been fetched.
fn files_of<'o>(alloc: Global, objects: &'o [GeneratedFile]) -> Result<Files<'o>, AllocError>
    ensures { IfOk result (λ files. bytes_in files ≡ bytes_in objects.now) }
{
    let mut files = Files::empty(alloc);
    for object in objects {
        files.add(object.name(), object.bytes())?;
    }
    Ok(files)
}
