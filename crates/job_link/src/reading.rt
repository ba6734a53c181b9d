//! Reads the objects of all images of a job.

ghost use Rattle.std.specs.Prelude.{◌≡◌, ◌≤◌, ◌-◌, [], All, IfErr, IfOk, OnOk, length, map, slice_set};
ghost use Rattle.std.specs.List.{AllZip};
ghost use Rattle.job_text.specs.declared.images.Image.{Image as DeclaredImage};
ghost use Rattle.job_link.specs.Given.{Allows, AreGiven, Given, IsGivenImage, IsTaken};
ghost use Rattle.job_link.specs.Mentions.{bytes_in, mentions_of};
ghost use Rattle.job_link.specs.Reads.{kinds_of, IsReading, IsReadRefusal};

use crate::fetching::Files;
use crate::images::{ImageObjects, ReadObject};
use crate::writable::WritableSections;
use elf_object::ObjectFault;
use job_text::{Image, Job, Name, index_of};
use rayon::prelude::*;
use std::alloc::{AllocError, Global};
use std::mem;
use std::thread::Threads;

/// Why the objects of a job cannot be read: the first that has a fault, by its name in the job, and its first fault.
/// If memory ran out, that is the fault, and the name may be any.
#[derive(Drop)]
pub struct ReadRefusal<'j> {
    pub name: &'j str,
    pub fault: ObjectFault,
}

impl From<AllocError> for ReadRefusal<'_> {
    ghost use Rattle.std.specs.Prelude.{◌≡◌};
    ghost use Rattle.object_rules.specs.declared.fault.ObjectFault.TheVariants.{OutOfMemory as NoRoom};

    ghost from_gives = { λ _ refusal. refusal.fault ≡ NoRoom };

    fn from(_error: AllocError) -> Self {
        ReadRefusal {
            name: "",
            fault: ObjectFault::OutOfMemory,
        }
    }
}

/// The images of a job, still without objects.
fn empty_images<'a>(alloc: Global, job: &Job) -> Result<Vec<ImageObjects<'a>>, AllocError>
    ensures kinds { IfOk result (λ images. kinds_of images.items
        ≡ map (λ (image : DeclaredImage). image.kind) job.now.images) }
    ensures given { IfOk result (λ images. All IsGivenImage images.items) }
    ensures empty { IfOk result (λ images. All (λ (image : Given). image.objects ≡ []) images.items) }
{
    let mut images = Vec::with_capacity(alloc, job.images().len())?;
    for image in job.images() {
        images.push(ImageObjects::new(alloc, image.kind))?;
    }
    Ok(images)
}

/// Reads the object of this name.
fn read_object<'j, 'a>(
    alloc: Global,
    name: &'j str,
    files: &'a Files,
    writable: WritableSections,
) -> Result<ReadObject<'a>, ReadRefusal<'j>>
    ensures { IsReading writable (bytes_in files.now) name.now result }
{
    match ReadObject::read(alloc, files.file(name), writable) {
        Ok(read) => Ok(read),
        Err(fault) => Err(ReadRefusal { name, fault }),
    }
}

/// Reads the objects of these names. Each result depends on no other object, so threads read side by side.
fn read_each<'j, 'a, R: Threads + Sync>(
    rt: &R,
    alloc: Global,
    names: &'j [Name],
    files: &'a Files,
    writable: WritableSections,
) -> Result<Vec<Result<ReadObject<'a>, ReadRefusal<'j>>>, AllocError>
    ensures { IfOk result (λ readings. AllZip (IsReading writable (bytes_in files.now)) names.now readings.items) }
{
    names
        .par_iter()
        .with_min_len(files.share())
        .map(
            |name: &Name| -> Result<ReadObject, ReadRefusal>
                ensures { IsReading writable (bytes_in files.entry.now) name.entry.now result }
            { read_object(alloc, name.as_str(), files, writable) },
        )
        .collect(rt, alloc)
}

/// The objects of an image, or the first that has a fault.
fn read_image<'j, 'a, R: Threads + Sync>(
    rt: &R,
    alloc: Global,
    image: &'j Image,
    files: &'a Files,
    writable: WritableSections,
) -> Result<ImageObjects<'a>, ReadRefusal<'j>>
    ensures kind { IfOk result (λ read. read.kind ≡ image.now.kind) }
    ensures objects { IfOk result (λ read. read.objects ≡ map (bytes_in files.now) image.now.objects) }
    ensures given { IfOk result IsGivenImage }
    ensures taken { OnOk result (All (λ name. IsTaken writable (bytes_in files.now name)) image.now.objects) }
    ensures allowed { IfOk result (λ read. All (Allows writable) read.objects) }
    ensures refused { IfErr result (IsReadRefusal writable (bytes_in files.now) image.now.objects) }
{
    let readings = read_each(rt, alloc, image.objects.as_slice(), files, writable)?;
    let mut read = ImageObjects::new(alloc, image.kind);
    for reading in readings {
        match reading {
            Ok(object) => read.push(object)?,
            Err(refusal) => return Err(refusal),
        }
    }
    Ok(read)
}

/// Replaces the image with this number.
fn put<'a>(images: &mut Vec<ImageObjects<'a>>, number: u32, read: ImageObjects<'a>)
    requires some { 1 ≤ number }
    requires within { number ≤ length images.old.items }
    ensures { images.new.items ≡ slice_set images.old.items (number - 1) read.entry }
{
    let _former = mem::replace(&mut images[index_of(number)], read);
}

/// Reads the objects of all images of a job; the images are in image order. They are read in the order in which the
/// job mentions them, and the first that has a fault is returned; data that programs write is a fault where
/// `writable` refuses it. Threads share the objects of an image.
pub fn read_objects<'j, 'a, R: Threads + Sync>(
    rt: &R,
    alloc: Global,
    job: &'j Job,
    files: &'a Files,
    writable: WritableSections,
) -> Result<Vec<ImageObjects<'a>>, ReadRefusal<'j>>
    ensures read { IfOk result (λ images. AreGiven (bytes_in files.now) job.now images.items) }
    ensures allowed { IfOk result (λ images. All (λ (image : Given). All (Allows writable) image.objects)
        images.items) }
    ensures refused { IfErr result (IsReadRefusal writable (bytes_in files.now) (mentions_of job.now)) }
{
    let mut images = empty_images(alloc, job)?;
    for number in job.mentions() {
        match read_image(rt, alloc, job.image(*number), files, writable) {
            Ok(read) => put(&mut images, *number, read),
            Err(refusal) => return Err(refusal),
        }
    }
    Ok(images)
}
