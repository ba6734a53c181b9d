//! A thread's memory: its stack, the blocks of its vector, data, and the loaded parts.

ghost use Rattle.std.specs.Prelude.{◌≡◌, ◌≤◌, ◌<◌, ◌+◌, ◌^◌, true, [], IfOk, OnOk, OnErr, length};
ghost use Rattle.loaded_modules.specs.Images.{infos};
ghost use Rattle.module_data.specs.Pieces.{loaded};
ghost use Rattle.module_table.specs.Past.{is_legal, module_of};
ghost use Rattle.module_table.specs.PastLaws.{live};
ghost use Rattle.thread_blocks.specs.Instances.{loaded_instance};
ghost use Rattle.thread_space.specs.Kept.{live_in};
ghost use Rattle.thread_space.specs.Steps.{HasData, HasFreshStack, IsNew, Looks, Reaches};
ghost use Rattle.thread_vector.specs.Holding.{IsLeftBy};
ghost use Rattle.std.specs.Vec.{vec_capacity, vec_len};

use crate::words::{no_stack, pointer_word, stack_of};
use guest_memory::GuestRange;
use loaded_modules::{Instance, Modules};
use module_data::Data;
use module_table::Event;
use std::alloc::{AllocError, Global};
use std::marker::Model;
use std::mem;
use thread_vector::Dtv;

/// One more than the most images that a job can have.
const NUMBERS: u32 = 65;

/// A thread's memory. Contracts see what it keeps: a `Kept`.
#[derive(Drop)]
pub struct ThreadSpace<'m> {
    pub(crate) alloc: Global,
    pub(crate) modules: &'m Modules,
    pub(crate) dtv: Dtv<'m>,
    pub(crate) data: Data,
    pub(crate) stack: GuestRange<u8>,
    /// The eight bytes at the thread pointer, which hold the thread pointer.
    pub(crate) pointer: GuestRange<u8>,
    /// The live instances, in the order of their images.
    pub(crate) live: Vec<Instance>,
}

impl<'m> Model for ThreadSpace<'m> {
    ghost use Rattle.thread_space.specs.Kept.{Kept};

    ghost Value = { Kept };

    ghost use Rattle.thread_space.specs.Holding.{HoldsSpace, kept_of};

    ghost view = { kept_of };

    ghost invariant = { HoldsSpace };
}

/// The live instances that a thread's vector has seen, in the order of their images. Allocates no memory.
fn list_live(dtv: &Dtv, room: Vec<Instance>) -> Vec<Instance>
    requires empty { room.items ≡ [] }
    requires none { vec_len room ≡ 0 }
    requires enough { 65 ≤ vec_capacity room }
    ensures { result.items ≡ live_in dtv.now.images dtv.now.past }
{
    dtv.history_is_lawful();
    let mut live = room;
    for image in 0..NUMBERS {
        if let Some(instance) = dtv.instance(image) {
            live.push_reserved(instance);
        }
    }
    live
}

impl<'m> ThreadSpace<'m> {
    /// The memory of a thread, from 1 to 64, of a job with these images, before any event. It has the blocks of the
    /// startup images, an empty stack, and no data.
    pub fn new(
        alloc: Global,
        thread: u32,
        modules: &'m Modules,
    ) -> Result<ThreadSpace<'m>, AllocError>
        requires low { 1 ≤ thread }
        requires high { thread ≤ 64 }
        ensures { IfOk result (IsNew thread modules.now) }
    {
        let dtv = Dtv::new(alloc, thread, modules)?;
        let live = list_live(&dtv, Vec::with_capacity(alloc, NUMBERS as usize)?);
        let pointer = pointer_word(alloc, thread)?;
        Ok(ThreadSpace {
            alloc,
            modules,
            dtv,
            data: Data::none(alloc),
            stack: no_stack(alloc, thread),
            pointer,
            live,
        })
    }

    /// The thread, from 1.
    pub fn thread(&self) -> u32
        ensures value { result ≡ self.now.vector.thread }
        ensures high { result ≤ 64 }
    {
        self.dtv.thread()
    }

    /// The allocator of its memory.
    pub fn alloc(&self) -> Global {
        self.alloc
    }

    /// How many events the thread has seen. They are always a history of the job's images.
    pub fn seen(&self) -> u64
        ensures value { result ≡ self.now.vector.past.seen }
        ensures left { IsLeftBy self.now.vector.images self.now.vector.past }
    {
        self.dtv.seen()
    }

    /// What the thread has seen is a history of the job's images. The call does nothing; it gives a proof this fact.
    pub fn history_is_lawful(&self)
        ensures { IsLeftBy self.now.vector.images self.now.vector.past }
    {
        self.seen();
    }

    /// Looks: takes the events that follow those that the thread has seen. If there is no memory for the list of live
    /// instances, nothing has changed.
    pub fn look(&mut self, events: &[Event]) -> Result<(), AllocError>
        requires legal { is_legal self.old.vector.past events.now ≡ true }
        requires room { self.old.vector.past.seen + length events.now < 2 ^ 62 }
        ensures ok { OnOk result (Looks self.old events.now self.new) }
        ensures err { OnErr result (self.new ≡ self.old) }
    {
        let room = Vec::with_capacity(self.alloc, NUMBERS as usize)?;
        self.dtv.catch_up(events);
        self.live = list_live(&self.dtv, room);
        Ok(())
    }

    /// Reaches the block of a live instance, as every access does. The first time, this makes the block. If there is
    /// no memory for it, nothing has changed.
    pub fn reach(&mut self, instance: u32) -> Result<(), AllocError>
        requires { live self.old.vector.past instance ≡ true }
        ensures ok { OnOk result (Reaches self.old instance self.new) }
        ensures err { OnErr result (self.new ≡ self.old) }
    {
        self.dtv.reach(instance)
    }

    /// Makes a fresh stack, as a call needs it.
    pub fn renew_stack(&mut self) -> Result<(), AllocError>
        ensures ok { OnOk result (HasFreshStack self.old self.new) }
        ensures err { OnErr result (self.new ≡ self.old) }
    {
        self.stack = stack_of(self.alloc, self.dtv.thread())?;
        Ok(())
    }

    /// Replaces the data.
    pub fn put_data(&mut self, data: Data)
        ensures { HasData self.old «data» self.new }
    {
        self.data = data;
    }

    /// Takes the data out, and leaves those of no image.
    pub fn take_data(&mut self) -> Data
        ensures value { result ≡ self.old.pieces }
        ensures left { HasData self.old [] self.new }
    {
        mem::replace(&mut self.data, Data::none(self.alloc))
    }

    /// Loads an instance: sets its image's data to those that the loader leaves.
    pub fn load(&mut self, instance: &Instance) -> Result<(), AllocError>
        ensures ok { OnOk result
            (HasData self.old (loaded self.old.vector.images instance.now self.old.pieces) self.new) }
        ensures err { OnErr result (self.new ≡ self.old) }
    {
        self.data.load(self.alloc, self.modules, instance)
    }

    /// The live instance of an image.
    #[tactic(auto, unfolding(loaded_modules::specs::Images::static_offset))]
    pub fn instance(&self, image: u32) -> Option<Instance>
        ensures { result ≡ loaded_instance (infos self.now.vector.images) image (module_of self.now.vector.past image) }
    {
        self.dtv.instance(image)
    }
}
