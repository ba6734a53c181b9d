//! A thread's memory: what it holds, and how that changes at a look.

ghost use Rattle.std.specs.Prelude.{◌≡◌, ◌≤◌, [], None, IfOk, OnErr, OnOk};
ghost use Rattle.thread_blocks.specs.JobWorlds.{blocks_in, data_in};
ghost use Rattle.thread_blocks.specs.MachineTurns.{fresh_stack};
ghost use Rattle.whole_meaning.specs.Threads.{ops};
ghost use Rattle.marked_memory.specs.Spaces.{HaveOwnNumbers, with_held};

use crate::owned;
use crate::owned::OwnedRange;
use crate::stack::MarkedStack;
use crate::words::pointer_word;
use guest_memory::GuestRange;
use job_meaning::Byte;
use loaded_modules::Instance;
use meant_images::MeantImages;
use std::alloc::{AllocError, Global};
use std::marker::Model;
use std::mem;

/// What a thread shall hold besides what it has.
#[derive(Clone, Copy, Debug)]
pub enum Wanted {
    /// Its blocks of all instances at a fixed distance from the thread pointer.
    Fixed,
    /// Its block of the instance with this number.
    BlockOf(u32),
    /// The data of the instance with this number, as its load fills them.
    DataOf(u32),
}

/// What a thread can reach while it runs, with marked bytes. Contracts see a `Kept`.
#[derive(Drop)]
pub struct MarkedMemory<'m> {
    pub(crate) alloc: Global,
    pub(crate) images: &'m MeantImages<'m>,
    pub(crate) thread: u32,
    /// The live instances, in the order of their images.
    pub(crate) live: Vec<Instance>,
    pub(crate) stack: MarkedStack,
    /// Its blocks, and after them the data while this thread has them.
    pub(crate) own: Vec<OwnedRange>,
    /// The eight bytes at the thread pointer: the thread pointer itself.
    pub(crate) pointer: GuestRange<Byte>,
    /// The word that is lent at address 0.
    pub(crate) lent: Option<u64>,
}

impl<'m> Model for MarkedMemory<'m> {
    ghost use Rattle.marked_memory.specs.Kept.{Kept};

    ghost Value = { Kept };

    ghost use Rattle.marked_memory.specs.Holding.{HoldsSpace, kept_of};

    ghost view = { kept_of };

    ghost invariant = { HoldsSpace };
}

impl<'m> MarkedMemory<'m> {
    /// The memory of a thread, numbered from 1 to 64, of a job with these images. It holds nothing yet.
    pub fn new(
        alloc: Global,
        thread: u32,
        images: &'m MeantImages<'m>,
    ) -> Result<MarkedMemory<'m>, AllocError>
        requires low { 1 ≤ thread }
        requires high { thread ≤ 64 }
        ensures { IfOk result (λ space. space ≡ record {
          thread = thread;
          images = images.now;
          live = [];
          stack = [];
          own = [];
          lent = None;
        }) }
    {
        let pointer = pointer_word(alloc, thread)?;
        Ok(MarkedMemory {
            alloc,
            images,
            thread,
            live: Vec::new(alloc),
            stack: MarkedStack::none(alloc),
            own: Vec::new(alloc),
            pointer,
            lent: None,
        })
    }

    /// The thread's number, from 1.
    pub fn thread(&self) -> u32
        ensures value { result ≡ self.now.thread }
        ensures low { 1 ≤ result }
        ensures high { result ≤ 64 }
    {
        self.thread
    }

    /// The images of its job.
    pub fn images(&self) -> &'m MeantImages<'m>
        ensures { result.now ≡ self.now.images }
    {
        self.images
    }

    /// Copies the memory.
    pub fn copy(&self) -> Result<MarkedMemory<'m>, AllocError>
        ensures { IfOk result (λ space. space ≡ self.now) }
    {
        Ok(MarkedMemory {
            alloc: self.alloc,
            images: self.images,
            thread: self.thread,
            live: Vec::from_slice(self.alloc, &self.live)?,
            stack: self.stack.copy(self.alloc)?,
            own: owned::copy(self.alloc, &self.own)?,
            pointer: pointer_word(self.alloc, self.thread)?,
            lent: self.lent,
        })
    }

    /// Takes a look: `live` are the live instances now. Keeps the blocks and data of these, takes `handed`, makes what
    /// is wanted, and drops the rest. Fails only when memory runs out, and then holds no block and no data.
    pub fn hold(
        &mut self,
        live: Vec<Instance>,
        handed: Vec<OwnedRange>,
        wanted: Wanted,
    ) -> Result<(), AllocError>
        requires { HaveOwnNumbers live.items }
        ensures held { OnOk result (self.new ≡ with_held live.items handed.items wanted self.old) }
        ensures used_up { OnErr result (self.new ≡ record self.old { live = live.items; own = [] }) }
    {
        let mut pool = mem::replace(&mut self.own, Vec::new(self.alloc));
        self.live = live;
        let mut handed = handed;
        pool.append(&mut handed)?;
        self.hold_of(pool, wanted)?;
        Ok(())
    }

    /// Makes the thread's block of a live instance, unless it has one. Fails only when memory runs out, and then holds
    /// no block and no data.
    pub fn reach(&mut self, instance: u32) -> Result<(), AllocError>
        ensures reached { OnOk result (self.new ≡ with_held self.old.live [] (Wanted.BlockOf instance) self.old) }
        ensures used_up { OnErr result (self.new ≡ record self.old { own = [] }) }
    {
        let pool = mem::replace(&mut self.own, Vec::new(self.alloc));
        self.hold_of(pool, Wanted::BlockOf(instance))?;
        Ok(())
    }

    /// Fills the data of a live instance as a load does. Fails only when memory runs out, and then holds no block and
    /// no data.
    pub fn load(&mut self, instance: u32) -> Result<(), AllocError>
        ensures loaded { OnOk result (self.new ≡ with_held self.old.live [] (Wanted.DataOf instance) self.old) }
        ensures used_up { OnErr result (self.new ≡ record self.old { own = [] }) }
    {
        let pool = mem::replace(&mut self.own, Vec::new(self.alloc));
        self.hold_of(pool, Wanted::DataOf(instance))?;
        Ok(())
    }

    /// Gives up the data, and keeps the blocks. Fails only when memory runs out, and then holds no block and no data.
    pub fn take_data(&mut self) -> Result<Vec<OwnedRange>, AllocError>
        ensures taken { IfOk result (λ handed. handed.items ≡ data_in self.old.own) }
        ensures blocks { OnOk result (self.new ≡ record self.old { own = blocks_in self.old.own }) }
        ensures used_up { OnErr result (self.new ≡ record self.old { own = [] }) }
    {
        let own = mem::replace(&mut self.own, Vec::new(self.alloc));
        let parted = owned::part(self.alloc, own)?;
        self.own = parted.blocks;
        Ok(parted.shared)
    }

    /// Makes the stack as a call finds it. Fails only when memory runs out, and then nothing has changed.
    pub fn renew_stack(&mut self) -> Result<(), AllocError>
        ensures renewed { OnOk result (self.new ≡ record self.old { stack = fresh_stack ops }) }
        ensures kept { OnErr result (self.new ≡ self.old) }
    {
        self.stack.renew(self.alloc)
    }

    /// Lends a word at address 0; `None` takes it back.
    pub fn lend(&mut self, word: Option<u64>)
        ensures { self.new ≡ record self.old { lent = word } }
    {
        self.lent = word;
    }
}
