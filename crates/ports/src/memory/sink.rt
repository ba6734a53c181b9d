//! A stream in memory.
ghost use Rattle.std.specs.Prelude.{◌≡◌, ◌≢◌, [], ◌++◌, take, OnOk, OnErr, IsErrOf, IfErr};
ghost use Rattle.ports.specs.Counts.{MemoryCounts, counted};
ghost use Rattle.ports.specs.Sinks.{Puts};
ghost use Rattle.ports.specs.States.{appended, sink_after_put};

use super::plan::FaultPlan;
use crate::{PutFault, Sink};
use std::alloc::{AllocError, Global};
use std::marker::Model;

/// A stream of bytes in memory, for tests: it shows them all, and fails at the call that [`fail_at`](Self::fail_at)
/// or [`fail_part`](Self::fail_part) names and at no other. A contract sees its bytes, its two counts, the number of
/// the call that fails next, and how many bytes that call still appends.
#[derive(Drop)]
pub struct MemorySink {
    bytes: Vec<u8>,
    plan: FaultPlan,
    shortages: u64,
    part: u64,
}

impl Model for MemorySink {
    ghost use Rattle.ports.specs.States.{SinkState};

    ghost Value = { SinkState };

    ghost view = { λ a. record {
      bytes = a.bytes.items;
      faults = a.plan.faults;
      shortages = a.shortages;
      fails_in = a.plan.fails_in;
      part = a.part;
    } };
}

impl MemorySink {
    /// A sink without bytes, which fails at no call.
    pub fn new(alloc: Global) -> Self
        ensures { result ≡ record { bytes = []; faults = 0; shortages = 0; fails_in = 0; part = 0 } }
    {
        MemorySink {
            bytes: Vec::new(alloc),
            plan: FaultPlan::new(),
            shortages: 0,
            part: 0,
        }
    }

    /// The bytes so far.
    pub fn bytes(&self) -> &[u8]
        ensures { result.now ≡ self.now.bytes }
    {
        &self.bytes
    }

    /// How often the sink has failed.
    pub fn faults(&self) -> u64
        ensures { result ≡ self.now.faults }
    {
        self.plan.faults
    }

    /// How often the sink has run out of memory.
    pub fn shortages(&self) -> u64
        ensures { result ≡ self.now.shortages }
    {
        self.shortages
    }

    /// Makes the n-th call from now on fail and append nothing; 1 is the next call, 0 means none.
    pub fn fail_at(&mut self, n: u64)
        ensures { self.new ≡ record self.old { fails_in = n; part = 0 } }
    {
        self.fail_part(n, 0);
    }

    /// Makes the n-th call from now on append the first `k` bytes of its piece, or all if it has fewer, and then
    /// fail. The last call of this function or of `fail_at` decides. The failing call returns `OutOfMemory` if there
    /// is no memory for those `k` bytes.
    pub fn fail_part(&mut self, n: u64, k: u64)
        ensures { self.new ≡ record self.old { fails_in = n; part = k } }
    {
        self.plan.fails_in = n;
        self.part = k;
    }

    /// Appends the bytes. If memory runs out, it counts that.
    fn append(&mut self, bytes: &[u8]) -> Result<(), PutFault>
        ensures ok { OnOk result (self.new ≡ record self.old { bytes = self.old.bytes ++ bytes.now }) }
        ensures err { OnErr result (self.new ≡ record self.old { shortages = counted self.old.shortages }) }
        ensures counts { MemoryCounts self.old.shortages self.new.shortages result }
        ensures cause { IfErr result (λ e. e ≡ PutFault.OutOfMemory) }
        ensures wanted { OnErr result (bytes.now ≢ []) }
    {
        if bytes.is_empty() {
            return Ok(());
        }
        match self.bytes.extend_from_slice(bytes) {
            Ok(()) => Ok(()),
            Err(AllocError) => {
                self.shortages = self.shortages.saturating_add(1);
                Err(PutFault::OutOfMemory)
            }
        }
    }
}

impl Sink for MemorySink {
    ghost use Rattle.ports.specs.States.{memory_view};

    ghost view = { memory_view };

    fn put(&mut self, piece: &[u8]) -> Result<(), PutFault>
        ensures puts { Puts piece.now (memory_view self.old) (memory_view self.new) result }

        ensures taken { OnOk result (self.old.fails_in ≢ 1) }
        ensures failed { IsErrOf result PutFault.Failed → self.old.fails_in ≡ 1 }
        ensures no_memory { IsErrOf result PutFault.OutOfMemory → appended self.old piece.now ≢ [] }
        ensures after { self.new ≡ sink_after_put self.old piece.now result }
    {
        if !self.plan.counts_call() {
            return self.append(piece);
        }
        self.append(front(piece, self.part))?;
        self.plan.counts_fault();
        Err(PutFault::Failed)
    }
}

/// The first `count` bytes, or all if there are fewer.
fn front(bytes: &[u8], count: u64) -> &[u8]
    ensures { result.now ≡ take count bytes.now }
{
    if count < bytes.len() as u64 {
        &bytes[..count as usize]
    } else {
        bytes
    }
}
