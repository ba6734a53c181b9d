//! Changed inputs of each kind, and what commands say of them.

use crate::alarm::{Alarm, ensure};
use crate::bench::{Bench, Program};
use crate::causes::JOB;
use crate::samples::{IMAGES, JOBS, LARGE_OBJECT, OBJECTS, Samples, any_job};
use crate::trial::try_job;
use input_changes::{change_image, change_object};
use job_changes::{Generator, JobLines};
use std::alloc::{AllocError, Global};
use std::sync::Wait;
use std::thread::Threads;

/// How much fuel a job has at most.
const MOST_FUEL: u64 = 1_000;

/// The job whose one object is a changed image.
const IMAGE_JOB: &[u8] = b"image app exe image\nfuel 1000\n";

/// How many changes an input has: mostly one.
fn change_count(generator: &mut Generator) -> u64 {
    match generator.below(8) {
        0..=4 => 1,
        5 | 6 => 2,
        _ => 3,
    }
}

/// Puts objects onto the bench as they are.
fn lay_each<P: Program>(
    bench: &mut Bench<P>,
    samples: &Samples,
    names: &[&str],
) -> Result<(), Alarm> {
    for name in names {
        bench.files.add(name, samples.bytes(name)?)?;
    }
    Ok(())
}

/// Puts all objects onto the bench as they are.
pub(crate) fn lay_objects<P: Program>(
    bench: &mut Bench<P>,
    samples: &Samples,
) -> Result<(), Alarm> {
    lay_each(bench, samples, &OBJECTS)?;
    lay_each(bench, samples, &[LARGE_OBJECT])
}

/// A changed job.
fn changed_job(alloc: Global, generator: &mut Generator, text: &str) -> Result<String, AllocError> {
    let mut lines = JobLines::of(alloc, text)?;
    for _ in 0..change_count(generator) {
        lines.change(generator, &OBJECTS)?;
    }
    lines.limit_fuel(MOST_FUEL)?;
    lines.text()
}

/// Tries one changed job.
pub(crate) fn try_changed_job<R: Threads + Wait + Sync, P: Program>(
    rt: &R,
    bench: &mut Bench<P>,
    generator: &mut Generator,
    samples: &Samples,
) -> Result<(), Alarm> {
    let old = samples.text(any_job(generator))?;
    let text = changed_job(bench.alloc, generator, old)?;
    bench.lay_input("job", text.as_bytes())?;
    try_job(rt, bench, generator)
}

/// A line by chance of those that name an image.
fn any_image_line<'a>(generator: &mut Generator, job: &'a str) -> &'a str {
    let lines = || job.lines().filter(|line| line.starts_with("image "));
    let number = generator.below(lines().count() as u64) as usize;
    lines().nth(number).unwrap_or("")
}

/// The name of an object that a job names, by chance.
fn any_object<'a>(generator: &mut Generator, job: &'a str) -> &'a str {
    let line = any_image_line(generator, job);
    let names = || line.split(' ').skip(3);
    let number = generator.below(names().count() as u64) as usize;
    names().nth(number).unwrap_or("")
}

/// The object that one is changed from: mostly itself, and else another.
fn any_source<'a>(generator: &mut Generator, name: &'a str) -> &'a str {
    let other = generator.pick(&OBJECTS).unwrap_or(LARGE_OBJECT);
    if generator.is_one_in(16) { other } else { name }
}

/// A changed object.
fn changed_object(
    alloc: Global,
    generator: &mut Generator,
    old: &[u8],
) -> Result<Vec<u8>, AllocError> {
    let mut bytes = Vec::from_slice(alloc, old)?;
    for _ in 0..change_count(generator) {
        change_object(generator, &mut bytes)?;
    }
    Ok(bytes)
}

/// Puts a changed object of this name onto the bench.
fn lay_changed_object<P: Program>(
    bench: &mut Bench<P>,
    generator: &mut Generator,
    samples: &Samples,
    name: &str,
) -> Result<(), Alarm> {
    let old = samples.bytes(any_source(generator, name))?;
    let bytes = changed_object(bench.alloc, generator, old)?;
    bench.lay_input(name, &bytes)?;
    Ok(())
}

/// Tries a job with one changed object.
pub(crate) fn try_changed_object<R: Threads + Wait + Sync, P: Program>(
    rt: &R,
    bench: &mut Bench<P>,
    generator: &mut Generator,
    samples: &Samples,
) -> Result<(), Alarm> {
    let job = samples.text(any_job(generator))?;
    let name = any_object(generator, job);
    lay_changed_object(bench, generator, samples, name)?;
    bench.files.add("job", job.as_bytes())?;
    try_job(rt, bench, generator)?;
    if generator.is_one_in(32) {
        bench.ask(rt, &["show", name])?;
    }
    lay_each(bench, samples, &[name])
}

/// Puts a copy of what `link` put among these.
fn push_copy<P: Program>(bench: &Bench<P>, images: &mut Vec<Vec<u8>>) -> Result<(), AllocError> {
    let put = bench.files.get("out").unwrap_or(&[]);
    images.push(Vec::from_slice(bench.alloc, put)?)?;
    Ok(())
}

/// Puts an image of the bench's job among these, by these words, if the job has one of that name.
fn push_image<R: Threads + Wait + Sync, P: Program>(
    rt: &R,
    bench: &mut Bench<P>,
    images: &mut Vec<Vec<u8>>,
    words: &[&str],
) -> Result<(), Alarm> {
    if bench.ask_first(rt, words)?.is_done() {
        ensure(bench.files.get("out").is_some(), "link puts nothing")?;
        push_copy(bench, images)?;
    }
    Ok(())
}

/// Puts the images of the bench's job among these, in both settings.
fn push_images<R: Threads + Wait + Sync, P: Program>(
    rt: &R,
    bench: &mut Bench<P>,
    images: &mut Vec<Vec<u8>>,
) -> Result<(), Alarm> {
    for image in IMAGES {
        push_image(rt, bench, images, &["link", "job", image, "out"])?;
        let words = ["link", "job", image, "out", "--no-relax"];
        push_image(rt, bench, images, &words)?;
    }
    Ok(())
}

/// All images of the samples' jobs, in both settings. Leaves the job on the bench whose object is an image.
pub(crate) fn linked_images<R: Threads + Wait + Sync, P: Program>(
    rt: &R,
    bench: &mut Bench<P>,
    samples: &Samples,
) -> Result<Vec<Vec<u8>>, Alarm> {
    let mut images = Vec::new(bench.alloc);
    for job in JOBS {
        bench.files.add("job", samples.bytes(job)?)?;
        push_images(rt, bench, &mut images)?;
    }
    bench.files.add("job", IMAGE_JOB)?;
    ensure(!images.is_empty(), "no job has an image")?;
    Ok(images)
}

/// A changed image.
fn changed_image(
    alloc: Global,
    generator: &mut Generator,
    images: &[Vec<u8>],
) -> Result<Vec<u8>, AllocError> {
    let number = generator.below(images.len() as u64) as usize;
    let mut bytes = match images.get(number) {
        Some(image) => image.clone()?,
        None => Vec::new(alloc),
    };
    for _ in 0..change_count(generator) {
        change_image(generator, &mut bytes)?;
    }
    Ok(bytes)
}

/// Asks `show`, which lists an image where it takes one.
fn test_listing<R: Threads + Wait + Sync, P: Program>(
    rt: &R,
    bench: &mut Bench<P>,
) -> Result<(), Alarm> {
    let shown = bench.ask_first(rt, &["show", "image"])?;
    let is_listing = bench.bytes(shown).starts_with(b"kind ");
    ensure(shown.is_done() == is_listing, "show lists no image")
}

/// Asks `run` of the image as a job, and `run` and `check` of the job whose object is the image.
fn test_as_input<R: Threads + Wait + Sync, P: Program>(
    rt: &R,
    bench: &mut Bench<P>,
) -> Result<(), Alarm> {
    let job = bench.ask(rt, &["run", "image"])?;
    ensure(job.status == JOB, "an image is a job")?;
    let run = bench.ask(rt, &["run", "job"])?;
    let check = bench.ask(rt, &["check", "job"])?;
    let is_alike = run.is_done() || bench.are_same(run, check);
    ensure(is_alike, "check refuses otherwise than run")
}

/// Tries one changed image: `show` has to take it or to name its fault. As a job it is refused, and as an object `check`
/// refuses it if `run` does.
pub(crate) fn try_changed_image<R: Threads + Wait + Sync, P: Program>(
    rt: &R,
    bench: &mut Bench<P>,
    generator: &mut Generator,
    images: &[Vec<u8>],
) -> Result<(), Alarm> {
    let bytes = changed_image(bench.alloc, generator, images)?;
    bench.lay_input("image", &bytes)?;
    test_listing(rt, bench)?;
    test_as_input(rt, bench)
}
