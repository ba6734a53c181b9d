//! A thread's memory, byte by byte.

ghost use Rattle.guest_operands.specs.declared.space.Access.TheVariants.{Read, Run, Write};
ghost use Rattle.thread_space.specs.Kept.{memory_of, shape_of};

use crate::space::ThreadSpace;
use guest_arithmetic::Plain;
use guest_machine::{Access, Size, Space};
use guest_memory::{Bytes, fetch, load, store};
use std::marker::Model;

/// The part of a thread that no access changes. No value of it is made: only contracts use it.
#[derive(Drop)]
pub struct Outline {
    pub(crate) thread: u32,
}

impl Model for Outline {
    ghost use Rattle.thread_space.specs.Kept.{Shape, shape_with};

    ghost Value = { Shape };

    ghost view = { λ o. shape_with o.thread };
}

impl<'m> Bytes<Plain> for ThreadSpace<'m> {
    type Rest = Outline;

    ghost memory = { memory_of };

    ghost rest = { shape_of };

    fn read(&self, place: u64) -> Option<u8> {
        if self.is_on_stack(Access::Read, place) {
            return self.stack_byte(place);
        }
        if let Some(instance) = self.block_at(place) {
            return self.block_byte(&instance, place);
        }
        if let Some(instance) = self.data_at(place) {
            return self.data_byte(&instance, place);
        }
        if self.is_at_pointer(Access::Read, place) {
            return self.pointer_byte(place);
        }
        self.fixed_byte(Access::Read, place)
    }

    fn run(&self, place: u64) -> Option<u8> {
        self.fixed_byte(Access::Run, place)
    }

    fn may_write(&self, place: u64) -> bool {
        if self.is_on_stack(Access::Write, place) {
            return true;
        }
        if self.block_at(place).is_some() {
            return true;
        }
        self.data_at(place).is_some()
    }

    fn write(&mut self, place: u64, byte: u8) {
        self.history_is_lawful();
        if self.is_on_stack(Access::Write, place) {
            self.set_stack_byte(place, byte);
        } else if let Some(instance) = self.block_at(place) {
            self.set_block_byte(&instance, place, byte);
        } else if let Some(instance) = self.data_at(place) {
            self.set_data_byte(&instance, place, byte);
        }
    }

    #[tactic(auto, unfolding(guest_operands::specs::RangeLaws::is_field_of, crate::specs::Kept::memory_of))]
    fn is_field(&self, place: u64) -> bool {
        false
    }
}

impl<'m> Space<Plain> for ThreadSpace<'m> {
    type Rest = Outline;

    ghost memory = { memory_of };

    ghost rest = { shape_of };

    fn fetch(&self, place: u64, into: &mut [u8; 15]) -> u8 {
        if self.copy_code(place, into) {
            return 15;
        }
        fetch::<Plain, ThreadSpace<'m>>(self, place, into)
    }

    fn load(&self, place: u64, size: Size) -> Option<u64> {
        load::<Plain, ThreadSpace<'m>>(self, place, size)
    }

    fn store(&mut self, place: u64, size: Size, word: u64) -> bool {
        store::<Plain, ThreadSpace<'m>>(self, place, size, word)
    }

    fn is_field(&self, place: u64) -> bool {
        <ThreadSpace<'m> as Bytes<Plain>>::is_field(self, place)
    }
}
