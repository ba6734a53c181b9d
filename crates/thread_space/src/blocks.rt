//! The bytes of a thread's blocks.

ghost use Rattle.std.specs.Prelude.{◌≡◌, true, slice_get};
ghost use Rattle.std.specs.List.{find};
ghost use Rattle.guest_operands.specs.declared.space.Access.TheVariants.{Read, Write};
ghost use Rattle.guest_operands.specs.Ranges.{byte_in};
ghost use Rattle.thread_space.specs.Kept.{live_in};
ghost use Rattle.thread_space.specs.Places.{block_ranges, takes};
ghost use Rattle.thread_space.specs.Writing.{WritesBlock};
ghost use Rattle.thread_blocks.specs.Instances.{block_start};
ghost use Rattle.thread_space.specs.Places.{behind};

use crate::space::ThreadSpace;
use loaded_modules::Instance;

/// The byte at an offset.
fn byte_of(bytes: &[u8], at: u64) -> Option<u8>
    ensures { result ≡ slice_get bytes.now at }
{
    bytes.get(at as usize).copied()
}

impl<'m> ThreadSpace<'m> {
    /// The offset of an address from the start of an instance's block, if the address lies in the block.
    fn behind_block(&self, instance: &Instance, place: u64) -> Option<u64>
        ensures { result ≡ behind (block_start self.now.vector.thread instance.now) place }
    {
        place.checked_sub(self.block_start(instance))
    }

    /// The byte at an address in the thread's block of an instance.
    pub(crate) fn block_byte(&self, instance: &Instance, place: u64) -> Option<u8>
        ensures read { result ≡ byte_in Read (block_ranges self.now.vector instance.now) place }
        ensures written { result ≡ byte_in Write (block_ranges self.now.vector instance.now) place }
    {
        let Some(bytes) = self.block(instance.number) else {
            return None;
        };
        let Some(at) = self.behind_block(instance, place) else {
            return None;
        };
        byte_of(bytes, at)
    }

    /// The live instance whose block holds an address.
    pub(crate) fn block_at(&self, place: u64) -> Option<Instance>
        ensures { result ≡ find (λ x. takes (block_ranges self.now.vector x) place)
            (live_in self.now.vector.images self.now.vector.past) }
    {
        for instance in &self.live {
            if self.block_byte(instance, place).is_some() {
                return Some(*instance);
            }
        }
        None
    }

    /// Writes the byte at an address in the thread's block of an instance.
    pub(crate) fn set_block_byte(&mut self, instance: &Instance, place: u64, byte: u8)
        requires { takes (block_ranges self.old.vector instance.now) place ≡ true }
        ensures { WritesBlock self.old instance.now place byte self.new }
    {
        if let Some(at) = self.behind_block(instance, place) {
            let block = self.dtv.block_mut(instance.number);
            block[at as usize] = byte;
        }
    }
}
