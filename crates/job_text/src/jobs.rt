//! The job.

ghost use Rattle.std.specs.Prelude.{All, ◌≡◌, ◌-◌, ◌≤◌, IfSome, Some, slice_get, ◌<◌, ◌^◌, [], IfOk, length, map};
ghost use Rattle.std.specs.Prelude.{AllPairs, Contains, ◌≢◌, ℕ, position, unwrap_or};
ghost use Rattle.std.specs.Option.{option_map};
ghost use Rattle.job_text.specs.LineAnswers.{IsLineAnswer};
ghost use Rattle.job_text.specs.LineEffects.{with_text};
ghost use Rattle.job_text.specs.LineFaults.{fault_of};
ghost use Rattle.job_text.specs.Images.{IsImageNumber, image_number, is_named};
ghost use Rattle.job_text.specs.Jobs.{in_image_order, job_declared, job_of, number_of, numbered_line};
ghost use Rattle.job_text.specs.JobLaws.{IsAnswer};

use crate::draft::{Draft, Plan, Slot};
use crate::fault::{Flaw, JobFault, JobFaultKind};
use crate::images::Image;
use crate::numbering::{at_number, index_of};
use crate::thread_lines::ThreadLine;
use crate::words::{is_skipped, text_of};
use std::alloc::{AllocError, Global};
use std::marker::Model;

/// The steps of a call if no line sets them.
const DEFAULT_FUEL: u64 = 100_000;

/// A job: the images to link, and what the threads do with them.
#[derive(Debug, Drop)]
pub struct Job {
    images: Vec<Image>,
    mentions: Vec<u32>,
    fuel: u64,
    order: Vec<u32>,
    lines: Vec<Vec<ThreadLine>>,
}

impl Model for Job {
    ghost use Rattle.std.specs.Prelude.{map};
    ghost use Rattle.job_text.specs.Jobs.{JobParts};
    ghost use Rattle.job_text.specs.JobLaws.{IsJob, job_parts};

    ghost Value = { JobParts };

    ghost view = { λ job. job_parts job.images.items job.mentions.items job.fuel job.order.items
        (map (λ lines. lines.items) job.lines.items) };

    ghost invariant = { λ job. IsJob
        (job_parts job.images.items job.mentions.items job.fuel job.order.items
        (map (λ lines. lines.items) job.lines.items)) };
}

impl Job {
    ghost use Rattle.job_text.specs.Threads.{IsThread};
    ghost use Rattle.job_text.specs.JobLaws.{IsLineOf, lines_of_thread};

    /// Reads a job.
    ///
    /// The result is the job that the bytes spell, or their first fault: the number of the first faulty line, counted
    /// from 1, and the first kind of fault that it has. If all lines are good and no program is declared, it is
    /// `NoExe` at line 0. Any call may return `OutOfMemory` instead. The cost is linear in the number of bytes.
    pub fn read(alloc: Global, bytes: &[u8]) -> Result<Job, JobFault>
        ensures { IsAnswer (job_of bytes.now) result }
    {
        let mut draft = Draft::new(alloc)?;
        for (index, line) in bytes.split(|byte| *byte == b'\n').enumerate() {
            let number = index as u64 + 1;
            if let Err(flaw) = read_line(alloc, &mut draft, number, line) {
                return Err(flaw.at(number));
            }
        }
        finish(alloc, draft)
    }

    /// The images in image order: the program, the modules that start with it, the late ones.
    pub fn images(&self) -> &[Image]
        ensures value { result.now ≡ self.now.images }
        ensures some { 1 ≤ length result.now }
        ensures few { length result.now ≤ 64 }
    {
        self.images.as_slice()
    }

    /// A job has from 1 to 64 images, each of which a line mentions, and from 1 to 64 threads. The call does nothing; it
    /// gives a proof these facts.
    pub fn keeps_limits(&self)
        ensures some_image { 1 ≤ length self.now.images }
        ensures few_images { length self.now.images ≤ 64 }
        ensures mentioned { (k : ℕ) → 1 ≤ k → k ≤ length self.now.images → Contains self.now.mentions k }
        ensures some_thread { 1 ≤ length self.now.lines }
        ensures few_threads { length self.now.lines ≤ 64 }
    {
        self.images();
        self.mentions();
        self.threads();
    }

    /// The numbers of the images, each once, in the order of their lines.
    pub fn mentions(&self) -> &[u32]
        ensures value { result.now ≡ self.now.mentions }
        ensures numbers { All (IsImageNumber self.now.images) result.now }
        ensures every { (k : ℕ) → 1 ≤ k → k ≤ length self.now.images → Contains result.now k }
        ensures once { AllPairs (λ a b. a ≢ b) result.now }
    {
        self.mentions.as_slice()
    }

    /// An image by its number, which counts from 1 in image order.
    pub fn image(&self, number: u32) -> &Image
        requires { IsImageNumber self.now.images number }
        ensures { slice_get self.now.images (number - 1) ≡ Some result.now }
    {
        &self.images[index_of(number)]
    }

    /// The number of the image with this name, if there is one.
    pub fn number(&self, name: &str) -> Option<u32>
        ensures value { result ≡ image_number self.now.images name.now }
        ensures within { IfSome result (IsImageNumber self.now.images) }
    {
        image_number(self.images.as_slice(), name)
    }

    /// How many threads there are, from 1 to 64.
    pub fn threads(&self) -> u32
        ensures value { result ≡ length self.now.lines }
        ensures some { 1 ≤ result }
        ensures few { result ≤ 64 }
    {
        self.lines.len() as u32
    }

    /// The most steps of one call, from 1 to 2^32 - 1.
    pub fn fuel(&self) -> u64
        ensures value { result ≡ self.now.fuel }
        ensures some { 1 ≤ result }
        ensures little { result < 2 ^ 32 }
    {
        self.fuel
    }

    /// The threads in the order in which they take their first turns.
    pub fn order(&self) -> &[u32]
        ensures value { result.now ≡ self.now.order }
        ensures named { All (IsThread (length self.now.lines)) result.now }
    {
        self.order.as_slice()
    }

    /// The lines of a thread; none if there is no such thread.
    #[tactic(auto, using(crate::proofs::Entries::entry_at))]
    pub fn lines(&self, thread: u32) -> &[ThreadLine]
        ensures value { result.now ≡ lines_of_thread self.now thread }
        ensures placed { All (IsLineOf self.now.images) result.now }
    {
        match at_number(self.lines.as_slice(), thread) {
            Some(lines) => lines.as_slice(),
            None => &[],
        }
    }
}

/// The number of the image with this name.
fn image_number(images: &[Image], name: &str) -> Option<u32>
    requires { length images.now ≤ 64 }
    ensures value { result ≡ image_number images.now name.now }
    ensures within { IfSome result (IsImageNumber images.now) }
{
    match image_index(images, name) {
        Some(index) => Some(index as u32 + 1),
        None => None,
    }
}

/// The index of the image with this name.
fn image_index(images: &[Image], name: &str) -> Option<usize>
    ensures value { result ≡ position (is_named name.now) images.now }
    ensures within { IfSome result (λ index. index < length images.now) }
{
    images.iter().position(|image| image.is_named(name))
}

/// Reads the next line.
#[tactic(auto, unfolding(crate::specs::LineFaults::fault_of, crate::specs::LineEffects::with_text))]
fn read_line<'a>(
    alloc: Global,
    draft: &mut Draft<'a>,
    number: u64,
    line: &'a [u8],
) -> Result<(), Flaw>
    ensures { IsLineAnswer (fault_of draft.old number line.now) (with_text line.now draft.old) draft.new result }
{
    if is_skipped(line) {
        return Ok(());
    }
    match text_of(line) {
        Some(text) => draft.read_line(alloc, number, text),
        None => Err(Flaw::Kind(JobFaultKind::NotText)),
    }
}

/// The job that a draft declares, if it has a program.
fn finish(alloc: Global, draft: Draft) -> Result<Job, JobFault>
    ensures { IsAnswer (job_declared draft.entry) result }
{
    let Draft {
        names: _,
        program,
        starts,
        lates,
        mentions,
        has_threads: _,
        fuel,
        order,
        lines,
    } = draft;
    let Some(program) = program else {
        return Err(JobFault::At {
            line: 0,
            kind: JobFaultKind::NoExe,
        });
    };
    let count = starts.len() as u8;
    let mentions = numbers_of(alloc, mentions, count)?;
    let lines = numbered_lines(alloc, lines, count)?;
    let images = in_image_order(alloc, program, starts, lates)?;
    Ok(Job {
        images,
        mentions,
        fuel: fuel.unwrap_or(DEFAULT_FUEL),
        order: order_or_none(alloc, order),
        lines,
    })
}

/// The images in image order.
fn in_image_order(
    alloc: Global,
    program: Image,
    starts: Vec<Image>,
    lates: Vec<Image>,
) -> Result<Vec<Image>, AllocError>
    ensures { IfOk result (λ images. images.items ≡ in_image_order program starts.items lates.items) }
{
    let mut starts = starts;
    let mut lates = lates;
    let mut images = Vec::new(alloc);
    images.push(program)?;
    images.append(&mut starts)?;
    images.append(&mut lates)?;
    Ok(images)
}

/// The order; empty if no line gives one.
fn order_or_none(alloc: Global, order: Option<Vec<u32>>) -> Vec<u32>
    ensures { result.items ≡ unwrap_or (option_map (λ threads. threads.items) order) [] }
{
    match order {
        Some(threads) => threads,
        None => Vec::new(alloc),
    }
}

/// The lines of all threads, with the images' numbers.
fn numbered_lines(
    alloc: Global,
    plans: Vec<Vec<Plan>>,
    starts: u8,
) -> Result<Vec<Vec<ThreadLine>>, AllocError>
    ensures { IfOk result
        (λ all. map (λ lines. lines.items) all.items
        ≡ map (λ lines. map (numbered_line starts) lines.items) plans.items) }
{
    let mut all = Vec::new(alloc);
    for lines in plans {
        all.push(numbered(alloc, lines, starts)?)?;
    }
    Ok(all)
}

fn numbered(alloc: Global, plans: Vec<Plan>, starts: u8) -> Result<Vec<ThreadLine>, AllocError>
    ensures { IfOk result (λ lines. lines.items ≡ map (numbered_line starts) plans.items) }
{
    plans
        .into_iter()
        .map(|plan| numbered_line(plan, starts))
        .collect(alloc)
}

fn numbered_line(plan: Plan, starts: u8) -> ThreadLine
    ensures { result ≡ numbered_line starts plan }
{
    let Plan { slot, action } = plan;
    ThreadLine {
        image: number_of(slot, starts),
        action,
    }
}

/// The numbers of images, in the same order.
fn numbers_of(alloc: Global, slots: Vec<Slot>, starts: u8) -> Result<Vec<u32>, AllocError>
    ensures { IfOk result (λ numbers. numbers.items ≡ map (number_of starts) slots.items) }
{
    slots
        .into_iter()
        .map(|slot| number_of(slot, starts))
        .collect(alloc)
}

/// The number of an image: the program is 1, then come the start images, then the late ones.
fn number_of(slot: Slot, starts: u8) -> u32
    ensures { result ≡ number_of starts slot }
{
    match slot {
        Slot::Program => 1,
        Slot::Start(index) => 2 + u32::from(index),
        Slot::Late(index) => 2 + u32::from(starts) + u32::from(index),
    }
}

/// Checks that threads may move and share a type's values.
fn crosses_threads<T: Send + Sync>() {}

/// Threads may move and share a job, and all that it is made of.
pub fn jobs_cross_threads() {
    crosses_threads::<Job>();
    crosses_threads::<Image>();
    crosses_threads::<ThreadLine>();
}
