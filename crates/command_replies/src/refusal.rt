//! The refusals of faults: the status and the line of each. Want of memory is no refusal.
ghost use Rattle.std.specs.Prelude.{◌≡◌, ◌<◌, ◌++◌, IfOk, codes, length, slice_get};
ghost use Rattle.std.specs.Fmt.{decimal};
ghost use Rattle.command_replies.specs.Says.{IsImageLine, IsJobLine, IsLinkLine, IsObjectLine};
ghost use Rattle.command_replies.specs.Says.{fault_text, shown_object};
ghost use Rattle.command_replies.specs.Statuses.{code_of};
ghost use Rattle.link_faults.specs.FaultNames.{kind_name};

use crate::replies::Reply;
use crate::statuses::Status;
use image_rules::ImageFault;
use job_text::{Job, JobFault, JobFaultKind, Name};
use link_faults::{LinkFault, LinkFaultKind};
use object_rules::{FaultKind, ObjectFault};
use std::alloc::{AllocError, Global};

/// The refusal of a job.
pub fn job_refusal(alloc: Global, fault: JobFault) -> Result<Reply, AllocError>
    ensures code { IfOk result (λ reply. code_of reply.status ≡ 5) }
    ensures line { IfOk result (λ reply. IsJobLine fault reply.text.items) }
{
    match fault {
        JobFault::OutOfMemory => Err(AllocError),
        JobFault::At { line, kind } => Ok(Reply {
            status: Status::Job,
            text: job_line(alloc, line, kind)?,
        }),
    }
}

/// The refusal of the object of this name.
pub fn object_refusal(alloc: Global, name: &str, fault: ObjectFault) -> Result<Reply, AllocError>
    ensures code { IfOk result (λ reply. code_of reply.status ≡ 6) }
    ensures line { IfOk result (λ reply. IsObjectLine name.now fault reply.text.items) }
{
    match fault {
        ObjectFault::OutOfMemory => Err(AllocError),
        ObjectFault::At {
            section,
            entry,
            kind,
        } => Ok(Reply {
            status: Status::Object,
            text: object_line(alloc, name, section, entry, kind)?,
        }),
    }
}

/// The refusal of the image of this number, counted from 0, which does not link.
pub fn link_refusal(
    alloc: Global,
    job: &Job,
    number: usize,
    fault: LinkFault,
) -> Result<Reply, AllocError>
    requires { number < length job.now.images }
    ensures code { IfOk result (λ reply. code_of reply.status ≡ 7) }
    ensures line { IfOk result (λ reply. IsLinkLine (slice_get job.now.images number) fault reply.text.items) }
{
    match fault {
        LinkFault::OutOfMemory => Err(AllocError),
        LinkFault::At {
            kind,
            object,
            section,
            entry,
        } => {
            let image = &job.images()[number];
            let object = shown_object(image.objects.as_slice(), object);
            Ok(Reply {
                status: Status::Link,
                text: link_line(alloc, image.name.as_str(), kind, object, section, entry)?,
            })
        }
    }
}

/// The refusal of the bytes of an image.
pub fn image_refusal(alloc: Global, fault: ImageFault) -> Result<Reply, AllocError>
    ensures code { IfOk result (λ reply. code_of reply.status ≡ 8) }
    ensures line { IfOk result (λ reply. IsImageLine fault reply.text.items) }
{
    match fault {
        ImageFault::OutOfMemory => Err(AllocError),
        ImageFault::At { offset, kind } => Ok(Reply {
            status: Status::Image,
            text: image_line(alloc, offset, kind)?,
        }),
    }
}

fn job_line(alloc: Global, line: u64, kind: JobFaultKind) -> Result<Vec<u8>, AllocError>
    ensures { IfOk result (λ text. IsJobLine (JobFault.At line kind) text.items) }
{
    Ok(format!(in alloc; "job {line} {kind}\n")?.into_bytes())
}

fn object_line(
    alloc: Global,
    name: &str,
    section: u64,
    entry: u64,
    kind: FaultKind,
) -> Result<Vec<u8>, AllocError>
    ensures { IfOk result (λ text. text.items ≡ fault_text name.now section entry kind) }
{
    Ok(format!(in alloc; "object {name} section {section} entry {entry} {kind}\n")?.into_bytes())
}

fn link_line(
    alloc: Global,
    image: &str,
    kind: LinkFaultKind,
    object: &str,
    section: u64,
    entry: u64,
) -> Result<Vec<u8>, AllocError>
    ensures { IfOk result (λ text. text.items ≡ codes "link " ++ image.now ++ codes " " ++ kind_name kind ++ codes " "
        ++ object.now ++ codes " section " ++ decimal section ++ codes " entry " ++ decimal entry ++ codes "\n") }
{
    let mut text = format!(in alloc; "link {image} {kind} {object}")?.into_bytes();
    let place = format!(in alloc; " section {section} entry {entry}\n")?;
    text.extend_from_slice(place.as_bytes())?;
    Ok(text)
}

fn image_line(
    alloc: Global,
    offset: u64,
    kind: image_rules::FaultKind,
) -> Result<Vec<u8>, AllocError>
    ensures { IfOk result (λ text. IsImageLine (ImageFault.At offset kind) text.items) }
{
    Ok(format!(in alloc; "image {offset} {kind}\n")?.into_bytes())
}

/// The name of the object at fault; `-` if the fault is at none.
fn shown_object(names: &[Name], object: Option<u64>) -> &str
    ensures { result.now ≡ shown_object names.now object }
{
    match object {
        None => "-",
        Some(number) => match names.get(number as usize) {
            Some(name) => name.as_str(),
            None => "-",
        },
    }
}
