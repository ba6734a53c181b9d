//! A job's images as modules, and a race over them.

ghost use Rattle.std.specs.Prelude.{◌≡◌, true, All, IfOk, map};
ghost use Rattle.job_text.specs.LateImages.{LateLast};
ghost use Rattle.loaded_modules.specs.Given.{AreModules, file_kind_of};
ghost use Rattle.transcript_text.specs.Texts.{IsImageNumber};
ghost use Rattle.race_tests.specs.Plain.{IsPlain, IsPlainImage};

use image_file::{FileKind, Image, ImageRelocation, LoaderKind};
use job_race::race_job;
use job_text::{Job, JobFault};
use job_turns::has_data;
use link_faults::ImageKind;
use loaded_modules::Modules;
use loaded_modules::laws::late_images_come_last;
use module_table::Registry;
use racing_thread::Gate;
use shared_modules::Shared;
use std::alloc::{AllocError, Global};
use std::sync::Wait;
use std::test::Fail;
use std::thread::Threads;
use transcript_text::Transcript;

/// Why a job could not be loaded with its images.
#[derive(Clone, Copy, PartialEq, Eq, Debug)]
pub enum Unready {
    OutOfMemory,
    Job,
    Images,
}

impl From<AllocError> for Unready {
    fn from(_error: AllocError) -> Unready {
        Unready::OutOfMemory
    }
}

/// Whether a relocation names no variable, and needs no block at a fixed distance from the thread pointer.
fn is_plain(relocation: ImageRelocation) -> bool
    ensures { result ≡ true → IsPlain relocation }
{
    match relocation.kind {
        LoaderKind::JumpSlot => true,
        LoaderKind::ThreadOffset => false,
        _ => relocation.symbol == 0,
    }
}

/// Whether all relocations of an image are plain.
fn is_plain_image(image: &Image) -> bool
    ensures { result ≡ true → IsPlainImage image.now }
{
    for number in 0..image.relocation_count() {
        match image.relocation(number) {
            Some(relocation) => {
                if !is_plain(relocation) {
                    return false;
                }
            }
            None => return false,
        }
    }
    true
}

/// Whether an image is of the kind that the job gives it.
fn is_kind(file: FileKind, kind: ImageKind) -> bool
    ensures { result ≡ true → file ≡ file_kind_of kind }
{
    match kind {
        ImageKind::Exe => matches!(file, FileKind::Exe),
        ImageKind::Pie => matches!(file, FileKind::Pie),
        ImageKind::Start | ImageKind::Late => matches!(file, FileKind::Module),
    }
}

/// Whether images with plain relocations are those of a job.
fn are_modules(job: &Job, images: &[Image]) -> bool
    requires { LateLast (map (λ image. image.kind) job.now.images) }
    ensures { result ≡ true → AreModules job.now images.now }
{
    let asked = job.images();
    if images.len() != asked.len() {
        return false;
    }
    for (index, image) in images.iter().enumerate() {
        if !is_kind(image.kind(), asked[index].kind) || !is_plain_image(image) {
            return false;
        }
    }
    true
}

/// A job with these images.
pub fn loaded(alloc: Global, text: &str, images: Vec<Image>) -> Result<(Job, Modules), Unready>
    ensures { IfOk result (λ pair. pair.1.kinds ≡ map (λ image. image.kind) pair.0.images) }
{
    late_images_come_last();
    let job = match Job::read(alloc, text.as_bytes()) {
        Ok(job) => job,
        Err(JobFault::OutOfMemory) => return Err(Unready::OutOfMemory),
        Err(_) => return Err(Unready::Job),
    };
    if !are_modules(&job, images.as_slice()) {
        return Err(Unready::Images);
    }
    let modules = Modules::new(alloc, &job, images)?;
    Ok((job, modules))
}

/// The transcript of a job's threads that run at once, over a history in which nothing is opened yet.
pub fn race<R: Threads + Wait + Sync, G: Gate + Sync>(
    rt: &R,
    alloc: Global,
    job: &Job,
    modules: &Modules,
    gate: &G,
) -> Result<Transcript, Fail>
    requires { modules.now.kinds ≡ map (λ image. image.kind) job.now.images }
    ensures { IfOk result (λ shown. All (λ event. IsImageNumber job.now.images event.image) shown.events) }
{
    if has_data(modules) {
        return Err(Fail::from("data"));
    }
    let registry = Registry::new(alloc, modules.infos(), modules.last_offset())?;
    let (shared, pass) = Shared::start(alloc, registry)?;
    let (_pass, shown) = race_job(rt, alloc, job, modules, &shared, pass, gate);
    Ok(shown?)
}
