//! Makes the images of a job ready in image order, and writes them.
//!
//! A caller that needs what a job means, or one of its images, needs no file of the others.

ghost use Rattle.std.specs.Prelude.{◌≡◌, ◌≤◌, ◌<◌, ◌-◌, ◌^◌, All, IfErr, IfOk, OnOk, length, map, not};
ghost use Rattle.link_core.specs.Faults.{IsLinkFault, IsSound, Links};
ghost use Rattle.link_core.specs.Images.{linked_of};
ghost use Rattle.link_faults.specs.ImageKinds.{is_late};
ghost use Rattle.job_link.specs.Linked.{exports_of, link_in, AllLink, IsFirstUnlinked};
ghost use Rattle.job_link.specs.Beside.{link_beside};

use crate::images::ImageObjects;
use link_core::{Linked, ReadyLink, prepare};
use link_faults::{ImageKind, LinkFault};
use link_needs::Inputs;
use std::alloc::{AllocError, Global};
use std::thread::Threads;
use tls_symbols::{Exports, exports};

/// Why the images of a job are not ready. `number` is that of an image, in image order, counted from 0: those before it
/// link, and `fault` is its first fault, or memory ran out for it.
#[derive(Drop)]
pub struct ImageRefusal {
    pub number: usize,
    pub fault: LinkFault,
}

/// Whether an image is the program, or a module that starts with it.
fn is_startup(kind: ImageKind) -> bool
    ensures { result ≡ not (is_late kind) }
{
    match kind {
        ImageKind::Exe | ImageKind::Pie | ImageKind::Start => true,
        ImageKind::Late => false,
    }
}

/// The names that the startup images export: the program, and the modules that start with it.
pub fn startup_exports<'a>(
    alloc: Global,
    images: &[ImageObjects<'a>],
) -> Result<Vec<Exports<'a>>, AllocError>
    ensures { IfOk result (λ startup. startup.items ≡ exports_of images.now) }
{
    let mut startup = Vec::new(alloc);
    for image in images {
        if is_startup(image.kind()) {
            startup.push(exports(alloc, image.objects())?)?;
        }
    }
    Ok(startup)
}

/// A link that is ready, if the values of all its fields fit; else the first that does not.
fn fitting<'l, 's, 'a>(ready: ReadyLink<'l, 's, 'a>) -> Result<ReadyLink<'l, 's, 'a>, LinkFault>
    requires { IsSound ready }
    ensures ready { IfOk result (λ same. same ≡ ready.entry) }
    ensures links { OnOk result (Links ready.entry) }
    ensures fault { IfErr result (IsLinkFault ready.entry) }
{
    match ready.overflow() {
        None => Ok(ready),
        Some(fault) => Err(fault),
    }
}

/// Makes an image ready, given the exports of the startup images, or returns its first fault.
fn ready_one<'i, 'a, R: Threads + Sync>(
    rt: &R,
    alloc: Global,
    image: &'i ImageObjects<'a>,
    startup: &'i [Exports<'a>],
    relax: bool,
) -> Result<ReadyLink<'i, 'i, 'a>, LinkFault>
    requires few { length startup.now < 2 ^ 32 - 1 }
    ensures ready { IfOk result (λ ready. ready ≡ link_beside startup.now relax image.now) }
    ensures links { OnOk result (Links (link_beside startup.now relax image.now)) }
    ensures fault { IfErr result (IsLinkFault (link_beside startup.now relax image.now)) }
{
    match prepare(
        rt,
        alloc,
        image.objects(),
        image.sites(),
        image.kind(),
        startup,
        relax,
    ) {
        Ok(ready) => fitting(ready),
        Err(fault) => Err(fault),
    }
}

/// Makes the images of a job, given in image order, ready, or returns the first that does not link. `startup` is what
/// the startup images export, and `relax` says whether sequences may be rewritten. No byte of an image is laid.
pub fn prepare_images<'i, 'a, R: Threads + Sync>(
    rt: &R,
    alloc: Global,
    images: &'i [ImageObjects<'a>],
    startup: &'i [Exports<'a>],
    relax: bool,
) -> Result<Vec<ReadyLink<'i, 'i, 'a>>, ImageRefusal>
    requires few { length images.now ≤ 64 }
    requires startup { startup.now ≡ exports_of images.now }
    ensures ready { IfOk result (λ all. all.items ≡ map (link_in images.now relax) images.now) }
    ensures links { OnOk result (AllLink images.now relax) }
    ensures refused { IfErr result (λ refusal. IsFirstUnlinked images.now relax refusal.number refusal.fault) }
{
    // Want of memory has an image too, so each refusal names one of the job's.
    let mut all = Vec::new(alloc);
    for (number, image) in images.iter().enumerate() {
        match ready_one(rt, alloc, image, startup, relax) {
            Ok(ready) => match all.push(ready) {
                Ok(()) => {}
                Err(_) => {
                    let fault = LinkFault::OutOfMemory;
                    return Err(ImageRefusal { number, fault });
                }
            },
            Err(fault) => return Err(ImageRefusal { number, fault }),
        }
    }
    Ok(all)
}

/// Writes images that link. The only error is `AllocError`.
pub fn write_images<R: Threads + Sync>(
    rt: &R,
    alloc: Global,
    all: Vec<ReadyLink>,
) -> Result<Vec<Linked>, AllocError>
    requires { All Links all.items }
    ensures { IfOk result (λ written. written.items ≡ map linked_of all.entry.items) }
{
    let mut written = Vec::with_capacity(alloc, all.len())?;
    for ready in all {
        written.push(ready.write(rt, alloc)?)?;
    }
    Ok(written)
}

/// What the meaning of images needs; it needs no byte of them.
pub fn inputs_of<'l, 's, 'a>(
    alloc: Global,
    all: Vec<ReadyLink<'l, 's, 'a>>,
) -> Result<Vec<Inputs<'l, 's, 'a>>, AllocError>
    ensures { IfOk result (λ inputs. inputs.items ≡ all.entry.items) }
{
    let mut inputs = Vec::with_capacity(alloc, all.len())?;
    for ready in all {
        inputs.push(ready.into_inputs())?;
    }
    Ok(inputs)
}
