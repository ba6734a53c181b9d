//! Makes the blocks and the data that a thread holds after a look.

ghost use Rattle.std.specs.Prelude.{◌≡◌, ◌≤◌, ◌∷◌, ◌++◌, [], IfOk, OnErr, OnOk, Some, true, option_map, option_to_list};
ghost use Rattle.std.specs.List.{flat_map};
ghost use Rattle.guest_operands.specs.Ranges.{Range};
ghost use Rattle.job_meaning.specs.declared.values.Byte.{Byte};
ghost use Rattle.thread_blocks.specs.Held.{block_after, block_with, data_after, held_of};
ghost use Rattle.whole_meaning.specs.Loads.{loads_of};
ghost use Rattle.marked_memory.specs.Owners.{HasSameData, LeavesOthers};
ghost use Rattle.marked_memory.specs.Spaces.{fills, reaches};

use crate::owned::{OwnedRange, Written, take_bytes};
use crate::space::{MarkedMemory, Wanted};
use crate::words::block_start;
use loaded_modules::Instance;
use marked_bytes::MarkedBytes;
use memory_image::WritableRange;
use std::alloc::AllocError;

/// Whether a fresh block of the instance is wanted where the thread has none.
fn reaches(wanted: Wanted, instance: &Instance) -> bool
    ensures { result ≡ reaches wanted instance.now }
{
    match wanted {
        Wanted::Fixed => instance.offset.is_some(),
        Wanted::BlockOf(number) => instance.number == number,
        Wanted::DataOf(_) => false,
    }
}

/// Whether fresh data of the instance are wanted.
fn fills(wanted: Wanted, instance: &Instance) -> bool
    ensures { result ≡ fills wanted instance.now }
{
    match wanted {
        Wanted::Fixed | Wanted::BlockOf(_) => false,
        Wanted::DataOf(number) => instance.number == number,
    }
}

/// A thread's block of an instance, with these bytes.
fn block_with(thread: u32, instance: &Instance, bytes: MarkedBytes) -> OwnedRange
    requires { thread ≤ 64 }
    ensures { result ∷ [] ≡ block_with thread instance.now (Some bytes) }
{
    OwnedRange {
        kind: Written::Block,
        instance: instance.number,
        range: WritableRange {
            start: block_start(thread, instance),
            bytes,
        },
    }
}

/// Adds a range, if there is one.
fn push_some(ranges: &mut Vec<OwnedRange>, range: Option<OwnedRange>) -> Result<(), AllocError>
    ensures { OnOk result (ranges.new.items ≡ ranges.old.items ++ option_to_list range) }
{
    if let Some(range) = range {
        ranges.push(range)?;
    }
    Ok(())
}

impl<'m> MarkedMemory<'m> {
    /// The thread's block of an instance: its bytes are taken out of `pool`, or made fresh if `pool` has none and the
    /// block is wanted.
    fn block_after(
        &self,
        pool: &mut [OwnedRange],
        instance: &Instance,
        wanted: Wanted,
    ) -> Result<Option<OwnedRange>, AllocError>
        ensures block { IfOk result (λ block. option_to_list block
            ≡ block_after (loads_of self.now.images) self.now.thread (reaches wanted) pool.old instance.now) }
        ensures others { LeavesOthers Written.Block instance.now.number pool.old pool.new }
    {
        let number = instance.number;
        let bytes = match take_bytes(self.alloc, pool, Written::Block, number) {
            Some(bytes) => bytes,
            None => {
                if !reaches(wanted, instance) {
                    return Ok(None);
                }
                self.images.block(self.alloc, instance)?
            }
        };
        Ok(Some(block_with(self.thread, instance, bytes)))
    }

    /// The thread's blocks of all live instances. Their bytes are taken out of `pool`.
    fn blocks_after(
        &self,
        pool: &mut [OwnedRange],
        wanted: Wanted,
    ) -> Result<Vec<OwnedRange>, AllocError>
        ensures blocks { IfOk result (λ blocks. blocks.items
            ≡ flat_map (block_after (loads_of self.now.images) self.now.thread (reaches wanted) pool.old)
            self.now.live) }
        ensures shared { OnOk result (HasSameData pool.old pool.new) }
    {
        let mut blocks = Vec::new(self.alloc);
        for instance in &self.live {
            let block = self.block_after(pool, instance, wanted)?;
            push_some(&mut blocks, block)?;
        }
        Ok(blocks)
    }

    /// Where the data of an instance begin, if its image has any.
    fn data_start(&self, instance: &Instance) -> Option<u64>
        ensures { result ≡ option_map (λ (range : Range Byte). range.start)
            ((loads_of self.now.images).shared instance.now) }
    {
        self.images.data_start(instance)
    }

    /// The data of an instance as its load fills them.
    fn fresh_data(&self, instance: &Instance) -> Result<Option<OwnedRange>, AllocError>
        ensures { IfOk result (λ made. option_to_list made
            ≡ data_after (loads_of self.now.images) (λ x. true) [] instance.now) }
    {
        let number = instance.number;
        match self.images.fresh_data(self.alloc, instance)? {
            Some(range) => Ok(Some(OwnedRange {
                kind: Written::Data,
                instance: number,
                range,
            })),
            None => Ok(None),
        }
    }

    /// The data of an instance: taken out of `pool`, or fresh if they are wanted.
    fn data_after(
        &self,
        pool: &mut [OwnedRange],
        instance: &Instance,
        wanted: Wanted,
    ) -> Result<Option<OwnedRange>, AllocError>
        ensures shared { IfOk result (λ made. option_to_list made
            ≡ data_after (loads_of self.now.images) (fills wanted) pool.old instance.now) }
        ensures others { LeavesOthers Written.Data instance.now.number pool.old pool.new }
    {
        let number = instance.number;
        let held = take_bytes(self.alloc, pool, Written::Data, number);
        if fills(wanted, instance) {
            return self.fresh_data(instance);
        }
        let Some(bytes) = held else {
            return Ok(None);
        };
        match self.data_start(instance) {
            Some(start) => Ok(Some(OwnedRange {
                kind: Written::Data,
                instance: number,
                range: WritableRange { start, bytes },
            })),
            None => Ok(None),
        }
    }

    /// The data of all live instances. Their bytes are taken out of `pool`.
    fn shared_after(
        &self,
        pool: &mut [OwnedRange],
        wanted: Wanted,
    ) -> Result<Vec<OwnedRange>, AllocError>
        ensures { IfOk result (λ shared. shared.items
            ≡ flat_map (data_after (loads_of self.now.images) (fills wanted) pool.old) self.now.live) }
    {
        let mut shared = Vec::new(self.alloc);
        for instance in &self.live {
            let made = self.data_after(pool, instance, wanted)?;
            push_some(&mut shared, made)?;
        }
        Ok(shared)
    }

    /// The blocks and the data of all live instances. Their bytes are taken out of `pool`.
    fn held_of(
        &self,
        pool: &mut [OwnedRange],
        wanted: Wanted,
    ) -> Result<Vec<OwnedRange>, AllocError>
        ensures { IfOk result (λ own. own.items ≡ held_of (loads_of self.now.images) self.now.thread
            (reaches wanted) (fills wanted) self.now.live pool.old) }
    {
        let mut own = self.blocks_after(pool, wanted)?;
        let mut shared = self.shared_after(pool, wanted)?;
        own.append(&mut shared)?;
        Ok(own)
    }

    /// Replaces what the thread holds by its blocks and data in `pool`, and what is wanted. On an error it keeps what
    /// it held.
    pub(crate) fn hold_of(
        &mut self,
        pool: Vec<OwnedRange>,
        wanted: Wanted,
    ) -> Result<(), AllocError>
        ensures held { OnOk result (self.new ≡ record self.old {
          own = held_of (loads_of self.old.images) self.old.thread (reaches wanted) (fills wanted)
              self.old.live pool.items;
        }) }
        ensures kept { OnErr result (self.new ≡ self.old) }
    {
        let mut pool = pool;
        let own = self.held_of(&mut pool, wanted)?;
        self.own = own;
        Ok(())
    }
}
