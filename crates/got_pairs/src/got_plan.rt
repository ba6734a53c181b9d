//! Lays out the table.
ghost use Rattle.std.specs.Prelude.{◌≡◌, ◌+◌, ◌*◌, ◌≤◌, [], length, slice_get};
ghost use Rattle.std.specs.Prelude.{All, IfOk, IfSome, IsSome, OnOk};
ghost use Rattle.std.specs.Option.{option_map};
ghost use Rattle.got_pairs.specs.Entries.{entry_of};
ghost use Rattle.got_pairs.specs.Needs.{entries, of_group, size_of, start_of, total_size};
ghost use Rattle.got_pairs.specs.Plans.{with_need, with_needs};

use crate::entry::{Entry, entry_of};
use crate::need::{Group, Need};
use indexmap::IndexMap;
use link_faults::ImageKind;
use std::alloc::{AllocError, Global};
use std::marker::Model;

/// The global offset table of an image, laid out. Contracts see the image's kind, the offset of the program's block,
/// and the need for each entry, in the table's order.
#[derive(Drop)]
pub struct GotPlan<'a> {
    kind: ImageKind,
    block_offset: u64,
    /// Each need with an entry, and the byte at which the entry begins.
    starts: IndexMap<Need<'a>, u64>,
    /// How many bytes the entries so far take.
    size: u64,
}

impl<'a> Model for GotPlan<'a> {
    ghost use Rattle.std.specs.Prelude.{◌≡◌};
    ghost use Rattle.indexmap.specs.IndexMap.{keys};
    ghost use Rattle.got_pairs.specs.Needs.{total_size};
    ghost use Rattle.got_pairs.specs.Plans.{Table};
    ghost use Rattle.got_pairs.specs.Needs.{starts_from};

    ghost Value = { Table };

    ghost view = { λ plan. record { kind = plan.kind; block_offset = plan.block_offset; entries = keys plan.starts } };

    ghost invariant = { λ plan. (plan.starts.entries ≡ starts_from 0 (keys plan.starts))
        × (plan.size ≡ total_size (keys plan.starts)) };
}

/// Lays out the table of an image of this kind for the needs of its code, in their order. `block_offset` is how far
/// below the thread pointer the program's block begins. The only error is `AllocError`.
pub fn plan<'a>(
    alloc: Global,
    needs: &[Need<'a>],
    kind: ImageKind,
    block_offset: u64,
) -> Result<GotPlan<'a>, AllocError>
    ensures plan { IfOk result (λ plan. plan
        ≡ record { kind = kind; block_offset = block_offset; entries = entries needs.now }) }

    // Each need has an entry, and the table has at most 16 bytes for each need.
    ensures served { IfOk result (λ plan. All (λ need. IsSome (start_of plan.entries need)) needs.now) }
    ensures small { IfOk result (λ plan. total_size plan.entries ≤ 16 * length needs.now) }
{
    let mut plan = GotPlan::empty(alloc, kind, block_offset);
    plan.add_group(Group::ModulePair, needs)?;
    plan.add_group(Group::SymbolPairs, needs)?;
    plan.add_group(Group::Descriptors, needs)?;
    plan.add_group(Group::SymbolWords, needs)?;
    plan.add_group(Group::AddressWords, needs)?;
    plan.add_group(Group::RuntimeWord, needs)?;
    Ok(plan)
}

impl<'a> GotPlan<'a> {
    fn empty(alloc: Global, kind: ImageKind, block_offset: u64) -> Self
        ensures { result ≡ record { kind = kind; block_offset = block_offset; entries = [] } }
    {
        GotPlan {
            kind,
            block_offset,
            starts: IndexMap::new(alloc),
            size: 0,
        }
    }

    /// Adds the entries for a group's needs.
    fn add_group(&mut self, group: Group, needs: &[Need<'a>]) -> Result<(), AllocError>
        ensures { OnOk result (self.new
            ≡ record self.old { entries = with_needs self.old.entries (of_group group needs.now) }) }
    {
        for need in needs {
            if need.group() == group {
                self.add(need)?;
            }
        }
        Ok(())
    }

    /// Adds the entry for a need, unless it has one.
    fn add(&mut self, need: &Need<'a>) -> Result<(), AllocError>
        ensures { OnOk result (self.new ≡ record self.old { entries = with_need self.old.entries need.now }) }
    {
        if self.starts.contains_key(need) {
            return Ok(());
        }
        let Some(end) = self.size.checked_add(need.size()) else {
            // So many entries fit in no memory.
            return Err(AllocError);
        };
        self.starts.insert(need.again(), self.size)?;
        self.size = end;
        Ok(())
    }

    /// Where the entry for a need begins, in bytes from the table's start; `None` if the table has no such entry. The
    /// time does not depend on the number of entries.
    pub fn start(&self, need: &Need<'a>) -> Option<u64>
        ensures start { result ≡ start_of self.now.entries need.now }
        ensures within { IfSome result (λ at. at + size_of need.now ≤ total_size self.now.entries) }
    {
        self.starts.get(need).copied()
    }

    /// How many bytes the table has.
    pub fn size(&self) -> u64
        ensures { result ≡ total_size self.now.entries }
    {
        self.size
    }

    /// How many entries there are.
    pub fn entry_count(&self) -> usize
        ensures { result ≡ length self.now.entries }
    {
        self.starts.len()
    }

    /// The contents of an entry, by its number in the table's order, from 0; `None` past the last.
    pub fn entry(&self, number: usize) -> Option<Entry<'a>>
        ensures { result
            ≡ option_map (entry_of self.now.kind self.now.block_offset) (slice_get self.now.entries number) }
    {
        match self.starts.get_index(number) {
            Some((need, _)) => Some(entry_of(self.kind, self.block_offset, need)),
            None => None,
        }
    }
}
