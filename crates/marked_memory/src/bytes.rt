//! A thread's memory, byte by byte.

ghost use Rattle.std.specs.Prelude.{◌≡◌, ◌-◌, [], ◌∷◌, true, slice_set};
ghost use Rattle.address_map.specs.Map.{stack_start};
ghost use Rattle.guest_operands.specs.Ranges.{byte_in};
ghost use Rattle.thread_blocks.specs.Instances.{fixed_of};
ghost use Rattle.thread_blocks.specs.MachineTurns.{pointer_word};
ghost use Rattle.thread_blocks.specs.Spaces.{stack_range};
ghost use Rattle.whole_meaning.specs.Loads.{loads_of};
ghost use Rattle.whole_meaning.specs.Threads.{ops};
ghost use Rattle.marked_memory.specs.Kept.{is_stack, memory_of, shape_of, with_lent};
ghost use Rattle.marked_memory.specs.Writing.{written_in};

use crate::owned;
use crate::space::MarkedMemory;
use crate::words::word_bytes;
use address_map::stack_start;
use guest_memory::{Bytes, fetch, load, store};
use guest_operands::{Access, Size, Space};
use job_meaning::{Byte, MarkedValues, Word};
use loaded_modules::Instance;
use std::marker::Model;

/// The part of a thread's memory that no access changes. No value of this type is ever made: only contracts speak of
/// it.
#[derive(Drop)]
pub struct Outline {
    pub(crate) thread: u32,
}

impl Model for Outline {
    ghost use Rattle.marked_memory.specs.Kept.{Shape, shape_with};

    ghost Value = { Shape };

    ghost view = { λ o. shape_with o.thread };
}

impl<'m> MarkedMemory<'m> {
    /// The byte of the lent word at `place`; `None` if there is none, or `access` is not allowed.
    fn lent_byte(&self, access: Access, place: u64) -> Option<Byte>
        ensures { result ≡ byte_in access (with_lent self.now.lent []) place }
    {
        match (access, self.lent) {
            (Access::Read, Some(number)) if place < 8 => {
                word_bytes(number).get(place as usize).copied()
            }
            _ => None,
        }
    }

    /// The byte of the stack at `place`; `None` if there is none, or `access` is not allowed.
    fn stack_byte(&self, access: Access, place: u64) -> Option<Byte>
        ensures { result ≡ byte_in access (stack_range (stack_start self.now.thread) self.now.stack ∷ []) place }
    {
        match access {
            Access::Read | Access::Write if self.is_stack(place) => {
                self.stack.byte(place - stack_start(self.thread))
            }
            _ => None,
        }
    }

    /// The byte of the word at the thread pointer; `None` if `place` is outside it, or `access` is not allowed.
    fn pointer_byte(&self, access: Access, place: u64) -> Option<Byte>
        ensures { result ≡ byte_in access (pointer_word ops self.now.thread ∷ []) place }
    {
        if self.pointer.grants(access, place) {
            return self.pointer.byte(place);
        }
        None
    }

    /// The byte of an instance's code or constants; `None` if there is none at `place`, or `access` is not allowed.
    fn loaded_byte(&self, instance: &Instance, access: Access, place: u64) -> Option<Byte>
        ensures { result ≡ byte_in access ((loads_of self.now.images).fixed instance.now) place }
    {
        match self.images.fixed_byte(instance, access, place) {
            Some(byte) => Some(Byte::Value(byte)),
            None => None,
        }
    }

    /// The byte of a live instance's code or constants; `None` if there is none at `place`, or `access` is not allowed.
    fn fixed_byte(&self, access: Access, place: u64) -> Option<Byte>
        ensures { result ≡ byte_in access (fixed_of (loads_of self.now.images) self.now.live) place }
    {
        for instance in &self.live {
            if let Some(byte) = self.loaded_byte(instance, access, place) {
                return Some(byte);
            }
        }
        None
    }

    /// The byte at `place`; `None` if there is none, or `access` is not allowed.
    fn byte_at(&self, access: Access, place: u64) -> Option<Byte>
        ensures { result ≡ byte_in access (memory_of self.now).ranges place }
    {
        if let Some(byte) = self.lent_byte(access, place) {
            return Some(byte);
        }
        if let Some(byte) = self.stack_byte(access, place) {
            return Some(byte);
        }
        if let Some(byte) = owned::byte_in(&self.own, access, place) {
            return Some(byte);
        }
        if let Some(byte) = self.pointer_byte(access, place) {
            return Some(byte);
        }
        self.fixed_byte(access, place)
    }

    /// Writes a byte of the stack.
    fn set_stack_byte(&mut self, place: u64, byte: Byte)
        requires { is_stack self.old place ≡ true }
        ensures { self.new ≡ record self.old {
          stack = slice_set self.old.stack (place - stack_start self.old.thread) byte;
        } }
    {
        let start = stack_start(self.thread);
        self.stack.set_byte(place - start, byte);
    }

    /// Writes a byte of the thread's blocks or of the data that it holds. Does nothing where `place` is in none of
    /// them.
    fn set_own_byte(&mut self, place: u64, byte: Byte)
        ensures { self.new ≡ record self.old { own = written_in self.old.own place byte } }
    {
        owned::write_in(&mut self.own, place, byte);
    }
}

impl<'m> Bytes<MarkedValues> for MarkedMemory<'m> {
    type Rest = Outline;

    ghost memory = { memory_of };

    ghost rest = { shape_of };

    fn read(&self, place: u64) -> Option<Byte> {
        self.byte_at(Access::Read, place)
    }

    fn run(&self, place: u64) -> Option<Byte> {
        self.byte_at(Access::Run, place)
    }

    fn may_write(&self, place: u64) -> bool {
        self.byte_at(Access::Write, place).is_some()
    }

    fn write(&mut self, place: u64, byte: Byte) {
        if self.is_stack(place) {
            self.set_stack_byte(place, byte);
        } else {
            self.set_own_byte(place, byte);
        }
    }

    #[tactic(auto, unfolding(guest_operands::specs::RangeLaws::is_field_of, crate::specs::Kept::memory_of))]
    fn is_field(&self, place: u64) -> bool {
        false
    }
}

impl<'m> Space<MarkedValues> for MarkedMemory<'m> {
    type Rest = Outline;

    ghost memory = { memory_of };

    ghost rest = { shape_of };

    fn fetch(&self, place: u64, into: &mut [u8; 15]) -> u8 {
        fetch::<MarkedValues, MarkedMemory<'m>>(self, place, into)
    }

    fn load(&self, place: u64, size: Size) -> Option<Word> {
        load::<MarkedValues, MarkedMemory<'m>>(self, place, size)
    }

    fn store(&mut self, place: u64, size: Size, word: Word) -> bool {
        store::<MarkedValues, MarkedMemory<'m>>(self, place, size, word)
    }

    fn is_field(&self, place: u64) -> bool {
        <MarkedMemory<'m> as Bytes<MarkedValues>>::is_field(self, place)
    }
}
