//! The bytes of a thread's stack, and the word at its thread pointer.

ghost use Rattle.std.specs.Prelude.{◌≡◌, ◌-◌, true, slice_get, slice_set};
ghost use Rattle.address_map.specs.Map.{pointer_of, stack_start};
ghost use Rattle.guest_arithmetic.specs.Plain.{plain_operations};
ghost use Rattle.guest_operands.specs.Ranges.{grants};
ghost use Rattle.guest_operands.specs.declared.space.Access.TheVariants.{Write};
ghost use Rattle.thread_blocks.specs.MachineTurns.{pointer_word, word_bytes};
ghost use Rattle.thread_blocks.specs.Spaces.{stack_range};

use crate::space::ThreadSpace;
use guest_machine::Access;

impl<'m> ThreadSpace<'m> {
    /// Whether an address lies on the stack, and the stack allows the access.
    pub(crate) fn is_on_stack(&self, access: Access, place: u64) -> bool
        ensures { result ≡ grants access (stack_range (stack_start self.now.vector.thread) self.now.stack) place }
    {
        self.stack.grants(access, place)
    }

    /// The byte at an address on the stack.
    pub(crate) fn stack_byte(&self, place: u64) -> Option<u8>
        ensures { result ≡ slice_get self.now.stack (place - stack_start self.now.vector.thread) }
    {
        self.stack.byte(place)
    }

    /// Writes the byte at an address on the stack.
    pub(crate) fn set_stack_byte(&mut self, place: u64, byte: u8)
        requires { grants Write (stack_range (stack_start self.old.vector.thread) self.old.stack) place ≡ true }
        ensures { self.new ≡ record self.old {
          stack = slice_set self.old.stack (place - stack_start self.old.vector.thread) byte;
        } }
    {
        self.stack.set_byte(place, byte);
    }

    /// Whether an address lies in the word at the thread pointer, and the word allows the access.
    pub(crate) fn is_at_pointer(&self, access: Access, place: u64) -> bool
        ensures { result ≡ grants access (pointer_word plain_operations self.now.vector.thread) place }
    {
        self.pointer.grants(access, place)
    }

    /// The byte at an address in that word.
    pub(crate) fn pointer_byte(&self, place: u64) -> Option<u8>
        ensures { result ≡ slice_get (word_bytes plain_operations (pointer_of self.now.vector.thread))
            (place - pointer_of self.now.vector.thread) }
    {
        self.pointer.byte(place)
    }
}
