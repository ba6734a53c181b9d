//! The registry of modules: one list of opens and closes, which decides everything else.

ghost use Rattle.std.specs.Prelude.{◌≡◌, ◌<◌, ◌≤◌, ◌^◌, [], drop, length, is_none, IfOk, IfErr, OnErr, OnOk, Ok, None};
ghost use Rattle.module_table.specs.Modules.{AreInfos};
ghost use Rattle.module_table.specs.Past.{accepts};
ghost use Rattle.module_table.specs.PastLaws.{live, offset, current, instance_of};
ghost use Rattle.module_table.specs.History.{left, IsSame, Adds, open_answer, close_answer, OpenRefused};
ghost use Rattle.module_table.specs.Past.{IsLegal};
ghost use Rattle.module_table.specs.History.{CloseRefused, IsRefusal, open_event, close_event};

use crate::events::{CloseRefusal, Closed, Event, OpenRefusal, Opened};
use crate::modules::{ImageInfo, Module};
use crate::table::ModuleTable;
use std::alloc::{AllocError, Global};
use std::marker::Model;

/// The history of modules. Contracts see a `History`: its images, the last startup image's offset, its events, and
/// for how many more events it has memory.
#[derive(Drop)]
pub struct Registry {
    infos: Vec<ImageInfo>,
    last_offset: u64,
    events: Vec<Event>,
    table: ModuleTable,
}

impl Model for Registry {
    ghost use Rattle.module_table.specs.History.{History};

    ghost Value = { History };

    ghost use Rattle.module_table.specs.Registries.{history_of, HoldsHistory};

    ghost view = { history_of };

    ghost invariant = { HoldsHistory };
}

impl Registry {
    /// The registry before any event. Image 1 is the program, then come the images that start with it, then the late
    /// ones; the block of the last startup image begins `last_offset` bytes below the thread pointer.
    pub fn new(alloc: Global, infos: &[ImageInfo], last_offset: u64) -> Result<Registry, AllocError>
        requires infos { AreInfos infos.now }
        requires low { last_offset < 2 ^ 27 }
        ensures infos { IfOk result (λ registry. registry.infos ≡ infos.now) }
        ensures last_offset { IfOk result (λ registry. registry.last_offset ≡ last_offset) }
        ensures events { IfOk result (λ registry. registry.events ≡ []) }
    {
        Ok(Registry {
            infos: Vec::from_slice(alloc, infos)?,
            last_offset,
            events: Vec::new(alloc),
            table: ModuleTable::new(alloc, infos, last_offset)?,
        })
    }

    /// The state after the history.
    fn table(&self) -> &ModuleTable
        ensures { result.now ≡ left self.now }
    {
        &self.table
    }

    /// How many events there were.
    pub fn len(&self) -> u64
        ensures value { result ≡ length self.now.events }
        ensures legal { IsLegal self.now.infos self.now.last_offset self.now.events }
        ensures few { length self.now.events < 2 ^ 63 }
    {
        self.events.len() as u64
    }

    /// What was accepted is a history of the images, and not a long one. The call does nothing; it gives a proof these
    /// facts.
    pub fn history_is_lawful(&self)
        ensures legal { IsLegal self.now.infos self.now.last_offset self.now.events }
        ensures few { length self.now.events < 2 ^ 63 }
    {
        self.len();
    }

    /// Whether an instance is live.
    pub fn live(&self, instance: u32) -> bool
        ensures { result ≡ live (left self.now) instance }
    {
        self.table().live(instance)
    }

    /// The live instance of an image.
    pub fn current(&self, image: u32) -> Option<u32>
        ensures { result ≡ current (left self.now) image }
    {
        self.table().current(image)
    }

    /// The live instance with a module id.
    pub fn instance_of(&self, id: u64) -> Option<u32>
        ensures { result ≡ instance_of (left self.now) id }
    {
        self.table().instance_of(id)
    }

    /// How far below the thread pointer the block of a live instance begins; `None` exactly if the instance is not
    /// live, or its block is not in the static surplus.
    pub fn offset(&self, instance: u32) -> Option<u64>
        ensures { result ≡ offset (left self.now) instance }
    {
        self.table().offset(instance)
    }

    /// The events from an index on.
    pub fn since(&self, at: u64) -> &[Event]
        requires { at ≤ length self.now.events }
        ensures value { result.now ≡ drop at self.now.events }
        ensures legal { IsLegal self.now.infos self.now.last_offset self.now.events }
    {
        &self.events[at as usize..]
    }

    /// Reserves memory for one more event: the next open or close then does not return `OutOfMemory`.
    pub fn reserve(&mut self) -> Result<(), AllocError>
        ensures spare { OnOk result (1 ≤ self.new.spare) }
        ensures same { IsSame self.old self.new }
        ensures legal { IsLegal self.new.infos self.new.last_offset self.new.events }
    {
        self.events.reserve(1)?;
        Ok(())
    }

    /// A copy of the history.
    pub fn copy(&self) -> Result<Registry, AllocError>
        ensures { IfOk result (λ registry. IsSame self.now registry) }
    {
        Ok(Registry {
            infos: self.infos.clone()?,
            last_offset: self.last_offset,
            events: self.events.clone()?,
            table: self.table.copy()?,
        })
    }

    /// Appends an event to the history, which no other call does, and answers how many events came before it. If there
    /// is a refusal, that is the answer; if memory ran out, `full` is.
    fn enter<R: Copy>(&mut self, refusal: Option<R>, event: Event, full: R) -> Result<u64, R>
        requires { accepts (left self.old) event ≡ is_none refusal }
        ensures at { IfOk result (λ at. at ≡ length self.old.events) }
        ensures free { OnOk result (refusal ≡ None) }
        ensures adds { OnOk result (Adds self.old event self.new) }
        ensures refused { IfErr result (IsRefusal self.old refusal full) }
        ensures same { OnErr result (IsSame self.old self.new) }
        ensures legal { IsLegal self.new.infos self.new.last_offset self.new.events }
        ensures few { length self.new.events < 2 ^ 63 }
    {
        let at = self.len();
        if let Some(refusal) = refusal {
            return Err(refusal);
        }
        let Ok(()) = self.events.push(event) else {
            return Err(full);
        };
        self.table.accept(event);
        self.history_is_lawful();
        Ok(at)
    }

    /// Opens an image for a thread's line. The refusals, in order: `Unknown`, `Full`, `StaticFull`, `OutOfMemory`.
    #[tactic(auto, using(crate::proofs::HistoryLemmas::opening), unfolding(crate::specs::Past::accepts))]
    pub fn open(&mut self, thread: u32, line: u32, image: u32) -> Result<Opened, OpenRefusal>
        ensures opened { IfOk result (λ opened. open_answer self.old image ≡ Ok opened) }
        ensures adds { OnOk result (Adds self.old (open_event thread line image) self.new) }
        ensures refused { IfErr result (OpenRefused self.old image) }
        ensures same { OnErr result (IsSame self.old self.new) }
        ensures legal { IsLegal self.new.infos self.new.last_offset self.new.events }
        ensures few { length self.new.events < 2 ^ 63 }
    {
        let refusal = self.table().open_refusal(image);
        let event = Event::open(thread, line, image);
        let at = self.enter(refusal, event, OpenRefusal::OutOfMemory)?;
        let Module { instance, id, .. } = self.table().module(image);
        Ok(Opened { instance, id, at })
    }

    /// Closes an image for a thread's line. The refusals, in order: `Permanent`, `NotOpen`, `OutOfMemory`.
    #[tactic(auto, using(crate::proofs::HistoryLemmas::closing), unfolding(crate::specs::Past::accepts))]
    pub fn close(&mut self, thread: u32, line: u32, image: u32) -> Result<Closed, CloseRefusal>
        ensures closed { IfOk result (λ closed. close_answer self.old image ≡ Ok closed) }
        ensures adds { OnOk result (Adds self.old (close_event thread line image) self.new) }
        ensures refused { IfErr result (CloseRefused self.old image) }
        ensures same { OnErr result (IsSame self.old self.new) }
        ensures legal { IsLegal self.new.infos self.new.last_offset self.new.events }
        ensures few { length self.new.events < 2 ^ 63 }
    {
        let event = Event::close(thread, line, image);
        let refusal = self.table().close_refusal(image);
        let at = self.enter(refusal, event, CloseRefusal::OutOfMemory)?;
        let gone = !self.table().module(image).is_loaded();
        Ok(Closed { at, gone })
    }
}
