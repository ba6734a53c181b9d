//! A job as far as it has been read.

ghost use Rattle.std.specs.Prelude.{All, ◌≡◌, ◌≤◌, ◌<◌, ◌||◌, ◌&&◌, [], false, Some, is_some, IfOk};
ghost use Rattle.std.specs.Prelude.{IfSome, IsTrue, OnOk, None, length, map, replicate, drop};
ghost use Rattle.job_text.specs.Actions.{IsAction};
ghost use Rattle.job_text.specs.Threads.{IsThread};
ghost use Rattle.job_text.specs.Drafts.{image_count, nothing_declared, slot_of};
ghost use Rattle.job_text.specs.DraftLaws.{IsSlot, IsPlan};
ghost use Rattle.job_text.specs.LineAnswers.{IsLineAnswer, IsOrderAnswer, IsRead, next_slot};
ghost use Rattle.job_text.specs.LineEffects.{action_of, with_heading, with_image, with_line, with_words};
ghost use Rattle.job_text.specs.LineFaults.{action_fault, fault_in_words, fault_under, has_long_object, is_image};
ghost use Rattle.job_text.specs.LineFaults.{is_miscounted, is_program, symbol_fault, thread_named};
ghost use Rattle.job_text.specs.Grammar.{heading_of};
ghost use Rattle.job_text.specs.Words.{word_at, words_of};
ghost use Rattle.job_text.specs.declared.grammar.Heading.TheVariants as heading;
ghost use Rattle.job_text.specs.declared.grammar.Verb.TheVariants as verb;

use crate::fault::{Flaw, JobFaultKind};
use crate::grammar::{Heading, Verb, has_its_words, heading_of, is_image_name};
use crate::images::Image;
use crate::numbering::index_of;
use crate::numbers::number_within;
use crate::operands::{has_long_object, objects_of, read_action};
use crate::spelling::Name;
use crate::thread_lines::Action;
use crate::words::Words;
use link_faults::ImageKind;
use std::alloc::{AllocError, Global};
use std::collections::HashMap;
use std::marker::Model;

/// The most images of a job.
const MAX_IMAGES: usize = 64;

const MAX_LINES: u64 = 65_536;

const MAX_THREADS: u64 = 64;

const MAX_FUEL: u64 = 0xffff_ffff;

/// The place of an image in its group; each group is counted from 0 in the order of the job.
#[derive(Clone, Copy)]
pub(crate) enum Slot {
    Program,
    Start(u8),
    Late(u8),
}

/// A line of a thread, before all images are known.
#[derive(Drop)]
pub(crate) struct Plan {
    pub(crate) slot: Slot,
    pub(crate) action: Action,
}

/// What the lines that were read declare.
#[derive(Drop)]
pub(crate) struct Draft<'a> {
    pub(crate) names: HashMap<&'a str, Slot>,
    pub(crate) program: Option<Image>,
    pub(crate) starts: Vec<Image>,
    pub(crate) lates: Vec<Image>,
    pub(crate) mentions: Vec<Slot>,
    pub(crate) has_threads: bool,
    pub(crate) fuel: Option<u64>,
    pub(crate) order: Option<Vec<u32>>,
    pub(crate) lines: Vec<Vec<Plan>>,
}

impl<'a> Model for Draft<'a> {
    ghost use Rattle.std.specs.Prelude.{map};
    ghost use Rattle.std.specs.Option.{option_map};
    ghost use Rattle.job_text.specs.Drafts.{Declared};
    ghost use Rattle.job_text.specs.DraftLaws.{IsDraft, declared};

    ghost Value = { Declared };

    ghost view = { λ d. declared d.program d.starts.items d.lates.items d.mentions.items d.has_threads d.fuel
        (option_map (λ threads. threads.items) d.order) (map (λ lines. lines.items) d.lines.items) };

    ghost invariant = { λ d. IsDraft d.names
        (declared d.program d.starts.items d.lates.items d.mentions.items d.has_threads d.fuel
        (option_map (λ threads. threads.items) d.order) (map (λ lines. lines.items) d.lines.items)) };
}

impl<'a> Draft<'a> {
    /// A job before its first line: it has one thread.
    pub(crate) fn new(alloc: Global) -> Result<Draft<'a>, AllocError>
        ensures { IfOk result (λ draft. draft ≡ nothing_declared) }
    {
        let mut lines = Vec::new(alloc);
        lines.push(Vec::new(alloc))?;
        Ok(Draft {
            names: HashMap::new(alloc),
            program: None,
            starts: Vec::new(alloc),
            lates: Vec::new(alloc),
            mentions: Vec::new(alloc),
            has_threads: false,
            fuel: None,
            order: None,
            lines,
        })
    }

    /// Reads a line of printable characters that is not skipped.
    pub(crate) fn read_line(
        &mut self,
        alloc: Global,
        number: u64,
        text: &'a str,
    ) -> Result<(), Flaw>
        ensures { IsLineAnswer (fault_under self.old number (heading_of (words_of text.now)) (words_of text.now))
            (with_heading (heading_of (words_of text.now)) (words_of text.now) self.old) self.new result }
    {
        let words = Words::of(alloc, text)?;
        match heading_of(&words) {
            Some(heading) => self.read_words(alloc, number, heading, &words),
            None => Err(Flaw::Kind(JobFaultKind::Word)),
        }
    }

    fn read_words(
        &mut self,
        alloc: Global,
        number: u64,
        heading: Heading,
        words: &Words<'a>,
    ) -> Result<(), Flaw>
        ensures { IsLineAnswer (fault_under self.old number (Some heading) words.now)
            (with_words heading words.now self.old) self.new result }
    {
        if self.is_miscounted(number, heading, words.count()) {
            return Err(Flaw::Kind(JobFaultKind::Count));
        }
        match heading {
            Heading::Image(kind) => self.read_image(alloc, kind, words),
            Heading::Threads => self.read_threads(alloc, words),
            Heading::Fuel => self.read_fuel(words),
            Heading::Order => self.read_order(alloc, words),
            Heading::Thread(verb) => self.read_thread_line(alloc, verb, words),
            Heading::Short => Err(Flaw::Kind(JobFaultKind::Count)),
        }
    }

    fn is_miscounted(&self, number: u64, heading: Heading, count: usize) -> bool
        ensures value { result ≡ is_miscounted self.now number heading count }
        ensures room { result ≡ false → IsTrue (is_image heading) → image_count self.now < 64 }
    {
        let full = is_image(heading) && self.image_count() == MAX_IMAGES;
        !has_its_words(heading, count) || full || MAX_LINES < number
    }

    /// How many images there are, at most 64.
    fn image_count(&self) -> usize
        ensures count { result ≡ image_count self.now }
        ensures few { result ≤ 64 }
    {
        let programs = if self.program.is_some() { 1 } else { 0 };
        programs + self.starts.len() + self.lates.len()
    }

    fn read_image(&mut self, alloc: Global, kind: ImageKind, words: &Words<'a>) -> Result<(), Flaw>
        requires { image_count self.old < 64 }
        ensures { IsLineAnswer (fault_in_words self.old (heading.Image kind) words.now)
            (with_words (heading.Image kind) words.now self.old) self.new result }
    {
        let name = words.at(1);
        if !is_image_name(name) || has_long_object(words) {
            return Err(Flaw::Kind(JobFaultKind::Name));
        }
        if self.is_declared(kind, name) {
            return Err(Flaw::Kind(JobFaultKind::Twice));
        }
        let image = Image {
            name: Name::new(alloc, name)?,
            kind,
            objects: objects_of(alloc, words)?,
        };
        self.declare(name, image)?;
        Ok(())
    }

    /// Whether the name has an image already, or a second program would be declared.
    fn is_declared(&self, kind: ImageKind, name: &'a str) -> bool
        ensures { result ≡ (is_some (slot_of self.now name.now) || (is_program kind && is_some self.now.program)) }
    {
        self.slot_of(name).is_some() || (is_program(kind) && self.program.is_some())
    }

    /// The slot of the image with this name.
    fn slot_of(&self, name: &'a str) -> Option<Slot>
        ensures value { result ≡ slot_of self.now name.now }
        ensures slot { IfSome result (IsSlot self.now.program self.now.starts self.now.lates) }
    {
        self.names.get(&name).copied()
    }

    /// Adds an image with a new name to its group, and mentions it after the images before it.
    fn declare(&mut self, name: &'a str, image: Image) -> Result<(), AllocError>
        requires room { image_count self.old < 64 }
        requires named { image.name ≡ name.now }
        requires undeclared { slot_of self.old name.now ≡ None }
        requires program { IsTrue (is_program image.kind) → self.old.program ≡ None }
        ensures { OnOk result (self.new ≡ with_image image image.kind self.old) }
    {
        let slot = self.next_slot(image.kind);
        // All room first, for either group, so that nothing fails once the name has its entry.
        self.starts.reserve(1)?;
        self.lates.reserve(1)?;
        self.mentions.reserve(1)?;
        self.names.insert(name, slot)?;
        self.mentions.push(slot).unwrap();
        match image.kind {
            ImageKind::Exe | ImageKind::Pie => self.program = Some(image),
            ImageKind::Start => self.starts.push(image).unwrap(),
            ImageKind::Late => self.lates.push(image).unwrap(),
        }
        Ok(())
    }

    /// The slot that the next image of a kind takes.
    fn next_slot(&self, kind: ImageKind) -> Slot
        requires { image_count self.now < 64 }
        ensures { result ≡ next_slot kind self.now }
    {
        match kind {
            ImageKind::Exe | ImageKind::Pie => Slot::Program,
            ImageKind::Start => Slot::Start(self.starts.len() as u8),
            ImageKind::Late => Slot::Late(self.lates.len() as u8),
        }
    }

    fn read_threads(&mut self, alloc: Global, words: &Words<'a>) -> Result<(), Flaw>
        ensures { IsLineAnswer (fault_in_words self.old heading.Threads words.now)
            (with_words heading.Threads words.now self.old) self.new result }
    {
        let Some(count) = number_within(words.at(1), 1, MAX_THREADS) else {
            return Err(Flaw::Kind(JobFaultKind::Number));
        };
        if self.has_threads {
            return Err(Flaw::Kind(JobFaultKind::Twice));
        }
        let mut more = empty_lines(alloc, count - 1)?;
        self.lines.append(&mut more)?;
        self.has_threads = true;
        Ok(())
    }

    fn read_fuel(&mut self, words: &Words<'a>) -> Result<(), Flaw>
        ensures { IsLineAnswer (fault_in_words self.old heading.Fuel words.now)
            (with_words heading.Fuel words.now self.old) self.new result }
    {
        let Some(steps) = number_within(words.at(1), 1, MAX_FUEL) else {
            return Err(Flaw::Kind(JobFaultKind::Number));
        };
        if self.fuel.is_some() {
            return Err(Flaw::Kind(JobFaultKind::Twice));
        }
        self.fuel = Some(steps);
        Ok(())
    }

    fn read_order(&mut self, alloc: Global, words: &Words<'a>) -> Result<(), Flaw>
        ensures { IsLineAnswer (fault_in_words self.old heading.Order words.now)
            (with_words heading.Order words.now self.old) self.new result }
    {
        let order = self.threads_of(alloc, words)?;
        if self.order.is_some() {
            return Err(Flaw::Kind(JobFaultKind::Twice));
        }
        self.order = Some(order);
        Ok(())
    }

    /// The threads that an order names.
    fn threads_of(&self, alloc: Global, words: &Words<'a>) -> Result<Vec<u32>, Flaw>
        ensures answer { IsOrderAnswer self.now words.now result }
        ensures named { IfOk result (λ order. All (IsThread (length self.now.lines)) order.items) }
    {
        let mut order = Vec::new(alloc);
        for index in 1..words.count() {
            let Some(thread) = self.thread_named(words.at(index)) else {
                return Err(Flaw::Kind(JobFaultKind::Number));
            };
            order.push(thread)?;
        }
        Ok(order)
    }

    fn read_thread_line(&mut self, alloc: Global, verb: Verb, words: &Words<'a>) -> Result<(), Flaw>
        ensures { IsLineAnswer (fault_in_words self.old (heading.Thread verb) words.now)
            (with_words (heading.Thread verb) words.now self.old) self.new result }
    {
        let Some(thread) = self.thread_named(words.at(0)) else {
            return Err(Flaw::Kind(JobFaultKind::Number));
        };
        let action = read_action(alloc, verb, words)?;
        let Some(slot) = self.slot_of(words.at(2)) else {
            return Err(Flaw::Kind(JobFaultKind::Name));
        };
        self.add_line(thread, Plan { slot, action })?;
        Ok(())
    }

    /// Adds a line to those of its thread.
    fn add_line(&mut self, thread: u32, plan: Plan) -> Result<(), AllocError>
        requires some { 1 ≤ thread }
        requires declared { thread ≤ length self.old.lines }
        requires plan { IsPlan self.old.program self.old.starts self.old.lates plan }
        ensures { OnOk result (self.new ≡ with_line thread plan self.old) }
    {
        let lines = &mut self.lines[index_of(thread)];
        lines.push(plan)?;
        Ok(())
    }

    /// The thread that a word names, if it is declared so far.
    fn thread_named(&self, word: &str) -> Option<u32>
        ensures value { result ≡ thread_named self.now word.now }
        ensures some { IfSome result (λ thread. 1 ≤ thread) }
        ensures declared { IfSome result (λ thread. thread ≤ length self.now.lines) }
    {
        let thread = number_within(word, 1, self.lines.len() as u64)?;
        Some(thread as u32)
    }
}

/// Empty lists of lines for `count` threads.
fn empty_lines(alloc: Global, count: u64) -> Result<Vec<Vec<Plan>>, AllocError>
    ensures { IfOk result (λ all. map (λ lines. lines.items) all.items ≡ replicate count []) }
{
    let mut all = Vec::new(alloc);
    for _thread in 0..count {
        all.push(Vec::new(alloc))?;
    }
    Ok(all)
}

fn is_image(heading: Heading) -> bool
    ensures { result ≡ is_image heading }
{
    match heading {
        Heading::Image(_) => true,
        _ => false,
    }
}

fn is_program(kind: ImageKind) -> bool
    ensures { result ≡ is_program kind }
{
    match kind {
        ImageKind::Exe | ImageKind::Pie => true,
        ImageKind::Start | ImageKind::Late => false,
    }
}
