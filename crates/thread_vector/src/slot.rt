//! One slot of a vector.

ghost use Rattle.std.specs.Prelude.{◌≡◌, ◌+◌, ◌≤◌, IfOk, Some, None, length, slice_range};
ghost use Rattle.module_table.specs.declared.TheConstants.{SURPLUS};
ghost use Rattle.loaded_modules.specs.Images.{size_at};
ghost use Rattle.loaded_modules.specs.Loader.{fresh_block};
ghost use Rattle.thread_vector.specs.Vectors.{is_number, no_piece, over};

use loaded_modules::{Instance, Modules};
use module_table::SURPLUS;
use std::alloc::{AllocError, Global};
use std::marker::Model;

/// A block, and the instance that it belongs to.
#[derive(Drop)]
pub(crate) struct Slot {
    instance: Option<u32>,
    bytes: Vec<u8>,
}

impl Model for Slot {
    ghost use Rattle.thread_vector.specs.Vectors.{Piece};

    ghost Value = { Piece };

    ghost view = { λ s. record { instance = s.instance; bytes = s.bytes.items } };
}

impl Slot {
    ghost use Rattle.std.specs.Borrow.{sem};
    ghost use Rattle.thread_vector.specs.SlotLends.{LendsPart};

    /// A slot with no block. Allocates no memory.
    pub fn empty(alloc: Global) -> Slot
        ensures { result ≡ no_piece }
    {
        Slot {
            instance: None,
            bytes: Vec::new(alloc),
        }
    }

    /// The bytes of the static surplus, which belong to no block yet.
    pub fn surplus(alloc: Global) -> Result<Slot, AllocError>
        ensures none { IfOk result (λ slot. slot.instance ≡ None) }
        ensures long { IfOk result (λ slot. length slot.bytes ≡ SURPLUS) }
    {
        let bytes = vec![in alloc; 0; SURPLUS as usize]?;
        Ok(Slot {
            instance: None,
            bytes,
        })
    }

    /// A fresh block of an instance, with `size` bytes, before any write.
    pub fn fresh(
        alloc: Global,
        modules: &Modules,
        instance: &Instance,
        size: usize,
    ) -> Result<Slot, AllocError>
        requires { size ≡ size_at modules.now instance.now.image }
        ensures fresh { IfOk result (λ slot. slot ≡ record {
          instance = Some instance.now.number;
          bytes = fresh_block modules.now instance.now;
        }) }
        ensures long { IfOk result (λ slot. length slot.bytes ≡ size) }
    {
        let mut bytes = vec![in alloc; 0; size]?;
        modules.fill_block(instance, bytes.as_mut_slice());
        Ok(Slot {
            instance: Some(instance.number),
            bytes,
        })
    }

    /// Writes an instance's fresh block over the `size` bytes from `from` on.
    pub fn fill(&mut self, modules: &Modules, instance: &Instance, from: usize, size: usize)
        requires size { size ≡ size_at modules.now instance.now.image }
        requires room { from + size ≤ length self.old.bytes }
        ensures filled { self.new ≡ record {
          instance = self.old.instance;
          bytes = over from size self.old.bytes (fresh_block modules.now instance.now);
        } }
        ensures long { length (fresh_block modules.now instance.now) ≡ size }
    {
        modules.fill_block(instance, &mut self.bytes[from..from + size]);
    }

    /// Whether it holds a block of the instance.
    pub fn is_of(&self, instance: u32) -> bool
        ensures { result ≡ is_number instance self.now.instance }
    {
        match self.instance {
            Some(number) => number == instance,
            None => false,
        }
    }

    /// Its bytes.
    pub fn bytes(&self) -> &[u8]
        ensures { result.now ≡ self.now.bytes }
    {
        self.bytes.as_slice()
    }

    /// The `size` bytes from `from` on.
    pub fn part(&self, from: usize, size: usize) -> &[u8]
        requires { from + size ≤ length self.now.bytes }
        ensures { result.now ≡ slice_range self.now.bytes from (from + size) }
    {
        &self.bytes[from..from + size]
    }

    /// The `size` bytes from `from` on, for writing.
    pub fn part_mut(&mut self, from: usize, size: usize) -> &mut [u8]
        requires { from + size ≤ length self.old.bytes }
        ensures* writes_back { sem 𝓛 (LendsPart self.entry from result) }
        ensures value { result.now ≡ slice_range self.old.bytes from (from + size) }
    {
        self.bytes.slice_mut(from..from + size)
    }
}
