//! The code that a thread may run, and its stack.

ghost use Rattle.std.specs.Prelude.{◌≡◌, ◌≤◌, ◌<◌, ◌==◌, ◌-◌, ◌^◌, IfOk, IfSome, length, option_map};
ghost use Rattle.std.specs.List.{find, list_any};
ghost use Rattle.address_map.specs.Map.{stack_start};
ghost use Rattle.thread_blocks.specs.Held.{block_bytes};
ghost use Rattle.whole_meaning.specs.Loads.{meaning_of};
ghost use Rattle.marked_memory.specs.Kept.{is_stack, mark_in, owner_in, sequence_in, shut_in};
ghost use Rattle.marked_memory.specs.Owners.{part_in};
ghost use Rattle.marked_memory.specs.Spaces.{with_hidden};

use crate::owned;
use crate::space::MarkedMemory;
use address_map::stack_start;
use guest_machine::is_look;
use job_meaning::Byte;
use loaded_modules::Instance;
use std::alloc::AllocError;
use whole_meaning::{Mark, Sequence};

impl<'m> MarkedMemory<'m> {
    /// The live instance with this number.
    pub fn numbered(&self, number: u64) -> Option<Instance>
        ensures { result ≡ find (λ (x : Instance). x.number == number) self.now.live }
    {
        for instance in &self.live {
            if u64::from(instance.number) == number {
                return Some(*instance);
            }
        }
        None
    }

    /// `size` bytes of the thread's block of an instance, from `offset`; `None` if the thread has no block of it, or
    /// one that ends before.
    pub fn part(
        &self,
        instance: u32,
        offset: u64,
        size: u32,
    ) -> Result<Option<Vec<Byte>>, AllocError>
        ensures part { IfOk result (λ part. option_map (λ bytes. bytes.items) part
            ≡ part_in offset size (block_bytes instance self.now.own)) }
        ensures low { IfOk result (λ part. IfSome part (λ bytes. offset < 2 ^ 32)) }
    {
        match owned::block(&self.own, instance) {
            Some(block) => block.part(self.alloc, offset, size),
            None => Ok(None),
        }
    }

    /// The live instance whose code is at `place`.
    pub fn owner(&self, place: u64) -> Option<Instance>
        ensures { result ≡ owner_in self.now place }
    {
        self.numbered(address_map::owner(place))
    }

    /// The mark of a byte of code.
    #[tactic(auto, unfolding(crate::specs::Kept::mark_in))]
    pub fn mark(&self, place: u64) -> Mark
        ensures { result ≡ mark_in self.now place }
    {
        match self.owner(place) {
            Some(instance) => self.images.mark(&instance, place),
            None => Mark::Usual,
        }
    }

    /// Whether `place` is in the room of a live instance: after its sections, where a linker may put what it makes.
    fn is_in_room(&self, place: u64) -> bool
        ensures { result ≡ list_any (λ x. (meaning_of self.now.images).room x place) self.now.live }
    {
        for instance in &self.live {
            if self.images.is_in_room(instance, place) {
                return true;
            }
        }
        false
    }

    /// Whether `place` is the linker's own: an address of the run time, or in the room of a live instance.
    #[tactic(auto, unfolding(crate::specs::Kept::shut_in))]
    pub fn is_shut(&self, place: u64) -> bool
        ensures { result ≡ shut_in self.now place }
    {
        is_look(place) || self.is_in_room(place)
    }

    /// The sequence that begins at `place`, if one does.
    #[tactic(auto, unfolding(crate::specs::Kept::sequence_in))]
    pub fn sequence(&self, place: u64) -> Option<Sequence>
        ensures { result ≡ sequence_in self.now place }
    {
        match self.owner(place) {
            Some(instance) => self.images.sequence(&instance, place),
            None => None,
        }
    }

    /// Whether `place` is in the stack.
    pub fn is_stack(&self, place: u64) -> bool
        ensures { result ≡ is_stack self.now place }
    {
        let start = stack_start(self.thread);
        start <= place && place - start < self.stack.len()
    }

    /// Makes the bytes of the stack below `place` unknown.
    pub fn forget(&mut self, place: u64)
        requires { place - stack_start self.old.thread ≤ length self.old.stack }
        ensures { self.new ≡ with_hidden place self.old }
    {
        let start = stack_start(self.thread);
        self.stack.hide(place.saturating_sub(start));
    }
}
