//! Runs a job whose images all link.
//!
//! Each image is written into its file and read back, and then all threads of the job take their turns over the images
//! that were read. So what is printed comes from the bytes that `link` would put into files, by a reader and a run time
//! that know nothing of this linker.
//!
//! The output is what the machine does, and for a clean job also what its objects mean: `HasRun` says both, and the
//! laws of `linked_jobs` tie the two. It says too where rewritten sequences stand in each image that was loaded, by the
//! law of `standing_sequences`.
ghost use Rattle.std.specs.Prelude.{◌≡◌, List, All, IfOk, map, true};
ghost use Rattle.commands.specs.RunJobs.{IsTold};
ghost use Rattle.commands.specs.InOrder.{AreLinks, IsOfFew};
ghost use Rattle.commands.specs.Runs.{AreModulesBack, HasRun, read_back};
ghost use Rattle.image_writer.specs.Loadable.{HoldsTls};
ghost use Rattle.image_writer.specs.Outlined.{outline_of};
ghost use Rattle.link_core.specs.Images.{linked_of};
ghost use Rattle.link_needs.specs.Linking.{Linking};
ghost use Rattle.transcript_text.specs.Texts.{IsImageNumber};

use crate::telling::Telling;
use image_file::Image;
use image_writer::into_file;
use job_link::{ImageObjects, write_images};
use job_text::Job;
use job_turns::run_job;
use link_core::laws::images_hold_tls;
use link_core::{Linked, ReadyLink};
use linked_jobs::{linked_jobs_print, transcripts_tell_their_threads};
use linked_modules::laws::linked_images_are_modules;
use loaded_modules::Modules;
use meaning_laws::laws::verdict_knows_no_setting;
use run_summary::SiteCounts;
use standing_sequences::linked_images_hold_the_table;
use std::alloc::{AllocError, Global};
use std::thread::Threads;
use transcript_text::Transcript;

/// Runs a job whose images are ready to be written; returns the text of the run.
pub fn told_run<R: Threads + Sync>(
    rt: &R,
    alloc: Global,
    job: &Job,
    ready: Vec<ReadyLink>,
    telling: Telling,
) -> Result<Vec<u8>, AllocError>
    requires { AreLinks job.now ready.items }
    ensures { IfOk result (λ text. IsTold HasRun telling job.now ready.entry.items text.items) }
{
    let all = write_images(rt, alloc, ready)?;
    let counts = SiteCounts::of(all.as_slice())?;
    let transcript = run_linked(alloc, job, all)?;
    telling.text(alloc, job, counts, &transcript)
}

/// Runs a job whose images are linked: writes each image, reads it back, and runs all threads
/// over those that were read.
fn run_linked(alloc: Global, job: &Job, all: Vec<Linked>) -> Result<Transcript, AllocError>
    requires links { (ls : List Linking) × AreLinks job.now ls × (all.items ≡ map linked_of ls) }
    ensures ran { IfOk result (λ transcript. (ls : List Linking) → AreLinks job.now ls → all.items ≡ map linked_of ls
        → HasRun job.now ls transcript) }
    ensures images { IfOk result (λ transcript.
        All (λ event. IsImageNumber job.now.images event.image) transcript.events) }
{
    linked_jobs_print();
    transcripts_tell_their_threads();
    verdict_knows_no_setting();
    linked_images_hold_the_table();
    job.keeps_limits();
    let modules = modules_again(alloc, job, all)?;
    run_job(alloc, job, &modules)
}

/// The modules of a job whose images are linked, each read from its written file.
pub fn modules_again(alloc: Global, job: &Job, all: Vec<Linked>) -> Result<Modules, AllocError>
    requires links { (ls : List Linking) × AreLinks job.now ls × (all.items ≡ map linked_of ls) }
    ensures back { IfOk result (AreModulesBack job.now all.items) }
    ensures kinds { IfOk result (λ modules. modules.kinds ≡ map (λ image. image.kind) job.now.images) }
{
    images_hold_tls();
    linked_images_are_modules();
    let images = images_again(alloc, all)?;
    Modules::new(alloc, job, images)
}

/// Whether each image is linked from fewer than 2^32 objects, so that all their symbols have numbers of their own.
pub fn are_of_few(images: &[ImageObjects]) -> bool
    ensures few { result ≡ true → All IsOfFew images.now }
    ensures many { All IsOfFew images.now → result ≡ true }
{
    for image in images {
        if image.objects().len() >= 1 << 32 {
            return false;
        }
    }
    true
}

/// All linked images, each read from its written file.
fn images_again(alloc: Global, all: Vec<Linked>) -> Result<Vec<Image>, AllocError>
    requires { All (λ linked. HoldsTls (outline_of linked.image)) all.items }
    ensures read { IfOk result (λ images. images.items ≡ map read_back all.items) }
    ensures again { IfOk result (λ images. images.items ≡ map (λ linked. linked.image) all.items) }
{
    let mut images = Vec::new(alloc);
    for linked in all {
        images.push(image_again(alloc, linked)?)?;
    }
    Ok(images)
}

/// A linked image, read from its written file.
fn image_again(alloc: Global, linked: Linked) -> Result<Image, AllocError>
    requires { HoldsTls (outline_of linked.image) }
    ensures read { IfOk result (λ image. image ≡ read_back linked) }
    ensures again { IfOk result (λ image. image ≡ linked.image) }
{
    let file = into_file(alloc, linked.image)?;
    Ok(Image::from_bytes(file))
}
