//! Fetches several files, side by side.
ghost use Rattle.std.specs.Prelude.{◌≡◌, ◌<◌, ℕ, IfOk, length, slice_index_or};
ghost use Rattle.std.specs.List.{AllZip};
ghost use Rattle.ports.specs.Claims.{IsFresh, texts};
ghost use Rattle.ports.specs.ClaimLaws.{Reads};
ghost use Rattle.ports.specs.Counts.{FetchCounts};
ghost use Rattle.ports.specs.Files.{Fetches, IsFile};

use crate::{Claim, FetchFault, Store};
use rayon::current_num_threads;
use std::alloc::Global;
use std::thread;
use std::thread::Threads;

/// With fewer files than this, one thread reads them all.
const FEW: usize = 4;

/// In how many threads so many files are read: two for each processor, since files differ in length.
fn threads_for<R: Threads>(rt: &R, files: usize) -> usize
    ensures { 0 < result }
{
    if files < FEW {
        1
    } else {
        current_num_threads(rt).saturating_mul(2).max(1)
    }
}

/// Reads the file of each claim. If a thread cannot be started, its starter reads instead.
fn read_each<S: Store, R: Threads + Sync>(
    rt: &R,
    alloc: Global,
    store: &S,
    claims: &mut [Claim<'_, S::Brand>],
)
    requires fresh { (k : ℕ) (d : _) → k < length claims.old → IsFresh (slice_index_or claims.old k d) }
    ensures len { length claims.new ≡ length claims.old }
    ensures each { (k : ℕ) (d : _) → k < length claims.old
        → Reads (S.files store.now) (slice_index_or claims.old k d) (slice_index_or claims.new k d) }
{
    let threads = threads_for(rt, claims.len());
    let read = |_place: usize, claim: &mut Claim<'_, S::Brand>|
        requires { IsFresh claim.old }
        ensures { Reads (S.files store.entry.now) claim.old claim.new }
    {
        store.read(alloc, claim);
    };
    thread::for_each_mut(rt, claims, threads, &read);
}

/// Fetches the files of these names in their order, up to the first refusal, which it returns. All names are asked for,
/// threads read the files side by side, and then the store counts each in order. A file that was read after a refusal
/// is not counted.
pub fn fetch_each<S: Store, R: Threads + Sync>(
    rt: &R,
    alloc: Global,
    store: &mut S,
    names: &[&str],
) -> Result<Vec<Vec<u8>>, FetchFault>
    ensures files { S.files store.new ≡ S.files store.old }
    ensures cause { FetchCounts (S.faults store.old) (S.faults store.new) result }
    ensures asked { Fetches (texts names.now) (S.asked store.old) (S.asked store.new) result }
    ensures out { S.out store.new ≡ S.out store.old }
    ensures bytes { IfOk result (λ files. AllZip (λ name file. IsFile (S.files store.old) name.now file.items)
        names.now files.items) }
{
    let Ok(mut claims) = store.claim(alloc, names) else {
        return Err(FetchFault::OutOfMemory);
    };
    read_each(rt, alloc, store, claims.as_mut_slice());
    store.settle(alloc, claims)
}
