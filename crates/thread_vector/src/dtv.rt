//! A thread's dynamic thread vector.

ghost use Rattle.std.specs.Prelude.{List, ◌≡◌, ◌+◌, ◌-◌, ◌*◌, ◌<◌, ◌≤◌, ◌^◌, ℕ, Some, None, Ok, Err, IfOk, IfErr, OnOk, OnErr, true, false, length, is_some, option_map};
ghost use Rattle.module_table.specs.Modules.{is_loaded};
ghost use Rattle.module_table.specs.Past.{start, after, after_one, accepts, is_legal, module_of};
ghost use Rattle.module_table.specs.PastLaws.{live, current, instance_of, image_of};
ghost use Rattle.loaded_modules.specs.Images.{infos, last_offset};
ghost use Rattle.thread_vector.specs.Addresses.{distance_of, start_of};
ghost use Rattle.thread_vector.specs.Holding.{IsLeftBy, IsVector};
ghost use Rattle.thread_vector.specs.Laws.{block_length};
ghost use Rattle.thread_vector.specs.Statements.{FilledAt, IsAddress, IsRefused, Leaves, MadeAt};
ghost use Rattle.thread_vector.specs.Vectors.{block_in, held, slot_of, fresh, caught_up, reached, instance_at, loaded_as};

use crate::slot::Slot;
use crate::start::first_slots;
use address_map::block_place;
use loaded_modules::{Instance, Modules};
use module_table::{Event, ModuleTable, SURPLUS};
use std::alloc::{AllocError, Global};
use std::marker::Model;
use thiserror::Error;

/// Why there is no address.
#[derive(Clone, Copy, PartialEq, Eq, Debug, Error)]
pub enum AddressRefusal {
    /// The instance that asks is closed.
    #[error("the module that asks is not loaded")]
    Unloaded,
    /// There was no memory for the block.
    #[error("out of memory")]
    OutOfMemory,
}

/// A range of bytes in a slot.
#[derive(Clone, Copy)]
pub(crate) struct Place {
    pub slot: usize,
    pub from: usize,
    pub size: usize,
}

/// The dynamic thread vector of one thread. Contracts see a `Vector`.
#[derive(Drop)]
pub struct Dtv<'m> {
    alloc: Global,
    thread: u32,
    modules: &'m Modules,
    table: ModuleTable,
    /// Blocks by module id. Slot 0 holds the bytes of the static surplus.
    slots: Vec<Slot>,
}

impl<'m> Model for Dtv<'m> {
    ghost use Rattle.thread_vector.specs.Vectors.{Vector};

    ghost Value = { Vector };

    ghost use Rattle.thread_vector.specs.Views.{vector_of, HoldsVector};

    ghost view = { vector_of };

    ghost invariant = { HoldsVector };
}

impl<'m> Dtv<'m> {
    ghost use Rattle.std.specs.Borrow.{sem};
    ghost use Rattle.thread_vector.specs.Places.{Writes, bytes_at, place_of, with_block};
    ghost use Rattle.thread_vector.specs.DtvLends.{LendsBlock};
    ghost use Rattle.thread_vector.specs.declared.dtv.AddressRefusal.TheVariants.{Unloaded};

    /// The vector of a thread, from 1 to 64, of a job with these images, before any event. It has the blocks of the
    /// startup images, and room for the static surplus.
    pub fn new(alloc: Global, thread: u32, modules: &'m Modules) -> Result<Dtv<'m>, AllocError>
        requires low { 1 ≤ thread }
        requires high { thread ≤ 64 }
        ensures thread { IfOk result (λ dtv. dtv.thread ≡ thread) }
        ensures images { IfOk result (λ dtv. dtv.images ≡ modules.now) }
        ensures past { IfOk result (λ dtv. dtv.past ≡ start (infos modules.now) (last_offset modules.now)) }
        ensures blocks { IfOk result (λ dtv. (i : ℕ) → held dtv i ≡ fresh modules.now dtv.past i) }
    {
        let table = ModuleTable::new(alloc, modules.infos(), modules.last_offset())?;
        let slots = first_slots(alloc, modules)?;
        Ok(Dtv {
            alloc,
            thread,
            modules,
            table,
            slots,
        })
    }

    /// How many events the thread has seen. They are always a history of the job's images.
    pub fn seen(&self) -> u64
        ensures value { result ≡ self.now.past.seen }
        ensures left { IsLeftBy self.now.images self.now.past }
    {
        self.table.seen()
    }

    /// What the thread has seen is a history of the job's images. The call does nothing; it gives a proof this fact.
    pub fn history_is_lawful(&self)
        ensures { IsLeftBy self.now.images self.now.past }
    {
        self.seen();
    }

    /// The slots hold the blocks of what the thread has seen. The call does nothing; it gives a proof this fact.
    fn blocks_fit(&self)
        ensures { IsVector self.now }
    {
        let _slots = &self.slots;
    }

    /// The thread, from 1.
    pub fn thread(&self) -> u32
        ensures { result ≡ self.now.thread }
    {
        self.thread
    }

    /// Whether an instance is live.
    pub fn live(&self, instance: u32) -> bool
        ensures { result ≡ live self.now.past instance }
    {
        self.table.live(instance)
    }

    /// The live instance of an image.
    pub fn current(&self, image: u32) -> Option<u32>
        ensures { result ≡ current self.now.past image }
    {
        self.table.current(image)
    }

    /// The live instance with a module id.
    pub fn instance_of(&self, id: u64) -> Option<u32>
        ensures { result ≡ instance_of self.now.past id }
    {
        self.table.instance_of(id)
    }

    /// The distance from the blocks of a loaded image up to the thread pointer, if it is fixed.
    fn distance_of(&self, image: u32) -> Option<u64>
        requires { is_loaded (module_of self.now.past image) ≡ true }
        ensures { result ≡ distance_of self.now.images image (module_of self.now.past image) }
    {
        let module = self.table.module(image);
        if module.info.late {
            module.offset
        } else {
            Some(self.modules.static_offset(image))
        }
    }

    /// A loaded image, as a loader knows it.
    fn loaded_as(&self, image: u32) -> Instance
        requires { is_loaded (module_of self.now.past image) ≡ true }
        ensures { result ≡ loaded_as self.now.images self.now.past image }
    {
        let module = self.table.module(image);
        Instance {
            image,
            number: module.instance,
            id: module.id,
            offset: self.distance_of(image),
        }
    }

    /// Takes an event, and leaves the bytes as they are.
    fn see(&mut self, event: Event)
        requires accepted { accepts self.old.past event ≡ true }
        requires room { self.old.past.seen < 2 ^ 63 }
        ensures seen { self.new ≡ record self.old { past = after_one self.old.past event } }
        ensures is { IsVector self.old }
    {
        self.table.accept(event);
    }

    /// Whether an image is loaded.
    fn is_loaded(&self, image: u32) -> bool
        ensures { result ≡ is_loaded (module_of self.now.past image) }
    {
        self.table.module(image).is_loaded()
    }

    /// The live instance of an image, as a loader knows it. `None` exactly if the image is not loaded.
    pub fn instance(&self, image: u32) -> Option<Instance>
        ensures { result ≡ instance_at self.now.images self.now.past image }
    {
        if self.is_loaded(image) {
            Some(self.loaded_as(image))
        } else {
            None
        }
    }

    /// Fills the block of a loaded image in the static surplus, if it has one there.
    fn fill_surplus(&mut self, image: u32)
        requires { is_loaded (module_of self.old.past image) ≡ true }
        ensures { FilledAt self.old image self.new (module_of self.old.past image).offset }
    {
        let module = self.table.module(image);
        match module.offset {
            None => (),
            Some(offset) => {
                let instance = self.loaded_as(image);
                let from = (self.modules.last_offset() + SURPLUS - offset) as usize;
                let slot = &mut self.slots[0];
                slot.fill(self.modules, &instance, from, module.info.size as usize);
            }
        }
    }

    /// Takes an event.
    fn take(&mut self, event: Event)
        requires accepted { accepts self.old.past event ≡ true }
        requires room { self.old.past.seen < 2 ^ 63 }
        ensures leaves { Leaves self.old self.new (after_one self.old.past event) }
        ensures blocks { (i : ℕ) → held self.new i ≡ caught_up self.old (after_one self.old.past event) i }
        ensures left { IsLeftBy self.old.images self.old.past }
    {
        let had = self.is_loaded(event.image);
        self.see(event);
        if !had {
            self.fill_surplus(event.image);
        }
    }

    /// Takes the events that follow those that the thread has seen. Drops the blocks of closed instances, and fills
    /// the block of each new instance of the static surplus. Allocates no memory.
    pub fn catch_up(&mut self, events: &[Event])
        requires legal { is_legal self.old.past events.now ≡ true }
        requires room { self.old.past.seen + length events.now < 2 ^ 62 }
        ensures leaves { Leaves self.old self.new (after self.old.past events.now) }
        ensures blocks { (i : ℕ) → held self.new i ≡ caught_up self.old (after self.old.past events.now) i }
    {
        self.blocks_fit();
        for event in events {
            self.take(*event);
        }
    }

    /// The block of a loaded image at an offset in the static surplus.
    fn surplus_block(&self, image: u32, offset: u64) -> &[u8]
        requires { (module_of self.now.past image).offset ≡ Some offset }
        ensures { block_in self.now.slots self.now.past image ≡ Some result.now }
    {
        let from = (self.modules.last_offset() + SURPLUS - offset) as usize;
        let size = self.table.module(image).info.size as usize;
        let slot = &self.slots[0];
        slot.part(from, size)
    }

    /// The block of a loaded image that has a slot of its own.
    fn own_block(&self, image: u32) -> Option<&[u8]>
        requires loaded { is_loaded (module_of self.now.past image) ≡ true }
        requires own { (module_of self.now.past image).offset ≡ None }
        ensures { block_in self.now.slots self.now.past image ≡ option_map (λ b. b.now) result }
    {
        let module = self.table.module(image);
        let slot = &self.slots[module.id as usize];
        if slot.is_of(module.instance) {
            Some(slot.bytes())
        } else {
            None
        }
    }

    /// The image of a live instance.
    fn image_of(&self, instance: u32) -> Option<u32>
        ensures { result ≡ image_of self.now.past instance }
    {
        self.table.image_of(instance)
    }

    /// The distance from an image's block in the static surplus up to the thread pointer.
    fn offset(&self, image: u32) -> Option<u64>
        ensures { result ≡ (module_of self.now.past image).offset }
    {
        self.table.module(image).offset
    }

    /// The bytes of the thread's block of an instance, if it has one.
    pub fn block(&self, instance: u32) -> Option<&[u8]>
        ensures { held self.now instance ≡ option_map (λ b. b.now) result }
    {
        let Some(image) = self.image_of(instance) else {
            return None;
        };
        match self.offset(image) {
            Some(offset) => Some(self.surplus_block(image, offset)),
            None => self.own_block(image),
        }
    }

    /// Whether the thread has a block of an instance. It is as long as the image says.
    pub fn has_block(&self, instance: u32) -> bool
        ensures value { result ≡ is_some (held self.now instance) }
        ensures long { (bytes : List ℕ) → held self.now instance ≡ Some bytes
            → length bytes ≡ block_length self.now.past instance }
    {
        self.blocks_fit();
        self.block(instance).is_some()
    }

    /// Makes a block of a loaded image, in its slot.
    fn make(&mut self, image: u32) -> Result<(), AllocError>
        requires loaded { is_loaded (module_of self.old.past image) ≡ true }
        requires own { (module_of self.old.past image).offset ≡ None }
        ensures made { OnOk result (MadeAt self.old image self.new) }
        ensures is { IsVector self.old }
        ensures err { OnErr result (self.new ≡ self.old) }
    {
        let module = self.table.module(image);
        let instance = self.loaded_as(image);
        let slot = Slot::fresh(
            self.alloc,
            self.modules,
            &instance,
            module.info.size as usize,
        )?;
        self.slots[module.id as usize] = slot;
        Ok(())
    }

    /// Reaches the block of a live instance, as every access does. The first time, this makes the block. If there is
    /// no memory for it, nothing has changed.
    pub fn reach(&mut self, instance: u32) -> Result<(), AllocError>
        requires { live self.old.past instance ≡ true }
        ensures leaves { Leaves self.old self.new self.old.past }
        ensures blocks { OnOk result ((i : ℕ) → held self.new i ≡ reached self.old instance i) }
        ensures memory { OnErr result (held self.old instance ≡ None) }
        ensures err { OnErr result (self.new ≡ self.old) }
    {
        if self.has_block(instance) {
            return Ok(());
        }
        let Some(image) = self.image_of(instance) else {
            return Ok(());
        };
        self.make(image)
    }

    /// The first address of the thread's block of a live instance.
    pub fn block_start(&self, instance: u32) -> u64
        ensures { result ≡ start_of self.now.thread self.now.images self.now.past instance }
    {
        let Some(image) = self.image_of(instance) else {
            return 0;
        };
        block_place(self.thread, instance, self.distance_of(image))
    }

    /// The address of the byte at `offset` in the thread's block of the live instance with module id `id`, modulo
    /// 2^64. The instance `asking` asks for it. This reaches the block. After an error nothing has changed. If the
    /// block is there, this looks at one slot.
    ///
    /// # Errors
    ///
    /// `Unloaded` if the instance that asks is closed, and `OutOfMemory` if there is no memory for a block that was
    /// not reached before.
    pub fn address(&mut self, asking: u32, id: u64, offset: u64) -> Result<u64, AddressRefusal>
        requires known { live self.old.past asking ≡ true → is_some (instance_of self.old.past id) ≡ true }
        ensures leaves { Leaves self.old self.new self.old.past }
        ensures ok { IfOk result (λ address. IsAddress self.old id offset self.new address) }
        ensures unloaded { live self.old.past asking ≡ false → result ≡ Err Unloaded }
        ensures refused { IfErr result (IsRefused self.old asking id) }
        ensures err { OnErr result (self.new ≡ self.old) }
    {
        self.blocks_fit();
        if !self.live(asking) {
            return Err(AddressRefusal::Unloaded);
        }
        let Some(instance) = self.instance_of(id) else {
            return Err(AddressRefusal::Unloaded);
        };
        if self.reach(instance).is_err() {
            return Err(AddressRefusal::OutOfMemory);
        }
        Ok(self.block_start(instance).wrapping_add(offset))
    }

    /// The range of bytes of an instance's block among the slots.
    fn place(&self, instance: u32) -> Place
        requires { is_some (held self.now instance) ≡ true }
        ensures place { result ≡ place_of self.now instance }
        ensures low { result.slot < length self.now.slots }
        ensures high { result.from + result.size ≤ length (slot_of self.now.slots result.slot).bytes }
        ensures block { held self.now instance ≡ Some (bytes_at self.now.slots result) }
    {
        self.blocks_fit();
        let Some(image) = self.image_of(instance) else {
            return Place {
                slot: 0,
                from: 0,
                size: 0,
            };
        };
        let module = self.table.module(image);
        let size = module.info.size as usize;
        match module.offset {
            Some(offset) => Place {
                slot: 0,
                from: (self.modules.last_offset() + SURPLUS - offset) as usize,
                size,
            },
            None => Place {
                slot: module.id as usize,
                from: 0,
                size,
            },
        }
    }

    /// The bytes of the thread's block of an instance, for writing: a block changes in no other way.
    pub fn block_mut(&mut self, instance: u32) -> &mut [u8]
        requires { is_some (held self.old instance) ≡ true }
        ensures* writes_back { sem 𝓛 (LendsBlock self.entry instance result) }
        ensures value { held self.old instance ≡ Some result.now }
        ensures writes { (w : List ℕ) → length w ≡ length result.now
            → Writes self.old instance w (with_block self.old instance w) }
    {
        let place = self.place(instance);
        self.slots[place.slot].part_mut(place.from, place.size)
    }
}
