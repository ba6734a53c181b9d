//! Files in memory.
ghost use Rattle.std.specs.Prelude.{◌≡◌, ◌≢◌, ◌-◌, ◌⊎◌, ◌↔◌, [], ◌∷◌, ◌++◌, length, take};
ghost use Rattle.std.specs.Prelude.{None, Some, IsErr, OnOk, OnErr, IsErrOf, IfOk, IfSome, MatchOption};
ghost use Rattle.std.specs.Option.{option_copied};
ghost use Rattle.std.specs.List.{All, AllZip};
ghost use Rattle.ports.specs.Claims.{Brings, IsFileOf, IsFor, IsFresh, IsRead, fewer, more, texts};
ghost use Rattle.ports.specs.ClaimLaws.{Settles};
ghost use Rattle.ports.specs.ClaimLaws.{untold_count};
ghost use Rattle.std.specs.FinMap as map;
ghost use Rattle.ports.specs.Counts.{FetchCounts, PutCounts, faults_after_fetch, faults_after_put};
ghost use Rattle.ports.specs.Files.{file_at, with_file, with_names, IsFile};
ghost use Rattle.file_bytes.specs.Pieces.{whole};

use super::plan::FaultPlan;
use crate::claims::claims_to;
use crate::settling::{Counts, settle_each};
use crate::{Claim, FetchFault, PutFault, Store};
use file_bytes::{Pieces, Whole, join};
use std::alloc::{AllocError, Global};
use std::collections::BTreeMap;
use std::marker::Model;

/// Files in memory, for tests: it shows them all, and fails at the call that [`fail_at`](Self::fail_at) names, at each
/// fetch of a name without a file, and at no other call. A contract sees its files, the count of its faults, and the
/// number of the call that fails next.
#[derive(Drop)]
pub struct MemoryStore {
    alloc: Global,
    files: BTreeMap<String, Vec<u8>>,
    plan: FaultPlan,
}

impl Model for MemoryStore {
    ghost use Rattle.ports.specs.States.{StoreState, store_code};
    ghost use Rattle.ports.specs.Entries.{files_of};

    ghost Value = { StoreState };

    ghost coded = { store_code };

    ghost view = { λ a. record {
      files = files_of a.files.entries;
      faults = a.plan.faults;
      fails_in = a.plan.fails_in;
    } };
}

impl MemoryStore {
    /// A store without files, in which no call is set to fail.
    pub fn new(alloc: Global) -> Self
        ensures { result ≡ record { files = map.empty; faults = 0; fails_in = 0 } }
    {
        MemoryStore {
            alloc,
            files: BTreeMap::new(alloc),
            plan: FaultPlan::new(),
        }
    }

    /// Makes these bytes the file of that name. This call is not counted, and fails only when memory runs out.
    pub fn add(&mut self, name: &str, bytes: &[u8]) -> Result<(), AllocError>
        ensures ok { OnOk result (self.new
            ≡ record self.old { files = map.insert self.old.files name.now bytes.now }) }
        ensures err { OnErr result (self.new ≡ self.old) }
    {
        self.keep(name, Vec::from_slice(self.alloc, bytes)?)
    }

    /// Makes these bytes the file of that name.
    fn keep(&mut self, name: &str, bytes: Vec<u8>) -> Result<(), AllocError>
        ensures ok { OnOk result (self.new
            ≡ record self.old { files = map.insert self.old.files name.now bytes.items }) }
        ensures err { OnErr result (self.new ≡ self.old) }
    {
        let name = String::from_str(self.alloc, name)?;
        self.files.insert(name, bytes)?;
        Ok(())
    }

    /// The bytes of the file of that name, if there is one.
    pub fn get(&self, name: &str) -> Option<&[u8]>
        ensures { option_copied result ≡ file_at self.now.files name.now }
    {
        match self.files.get(name) {
            Some(bytes) => Some(bytes.as_slice()),
            None => None,
        }
    }

    /// A copy of the bytes of the file of that name.
    fn copy_of(&self, alloc: Global, name: &str) -> Result<Vec<u8>, FetchFault>
        ensures file { IfOk result (λ file. IsFile (Some self.now.files) name.now file.items) }
        ensures fails { IsErrOf result FetchFault.Failed ↔ (file_at self.now.files name.now ≡ None) }
    {
        match self.get(name) {
            Some(bytes) => Ok(Vec::from_slice(alloc, bytes)?),
            None => Err(FetchFault::Failed),
        }
    }

    /// How often the store has failed.
    pub fn faults(&self) -> u64
        ensures { result ≡ self.now.faults }
    {
        self.plan.faults
    }

    /// Makes the n-th call from now on fail; 1 is the next call, 0 means none. Fetches and puts count together, and
    /// only the last number that was set counts.
    pub fn fail_at(&mut self, n: u64)
        ensures { self.new ≡ record self.old { fails_in = n } }
    {
        self.plan.fails_in = n;
    }
}

/// The brand of the claims of a [`MemoryStore`], which alone has a value of it.
pub struct MemoryBrand {
    _own: (),
}

impl Store for MemoryStore {
    type Brand = MemoryBrand;

    ghost use Rattle.std.specs.Prelude.{Some};
    ghost use Rattle.ports.specs.Files.{untold_names};

    ghost files = { λ s. Some s.files };

    ghost faults = { λ s. s.faults };

    ghost asked = { λ _. untold_names };

    ghost out = { λ _. untold_count };

    fn fetch(&mut self, name: &str, into: &mut Vec<u8>) -> Result<(), FetchFault>
        ensures files { Some self.new.files ≡ Some self.old.files }
        ensures bytes { IfSome (Some self.old.files) (λ fs. MatchOption (file_at fs name.now)
            (IsErr result) (λ b. OnOk result (into.new.items ≡ into.old.items ++ b))) }
        ensures appends { take (length into.old.items) into.new.items ≡ into.old.items }
        ensures kept { OnErr result (into.new.items ≡ into.old.items) }
        ensures cause { FetchCounts self.old.faults self.new.faults result }
        ensures asked { untold_names ≡ with_names (name.now ∷ []) untold_names }
        ensures out { untold_count ≡ untold_count }

        ensures fails { IsErrOf result FetchFault.Failed ↔ ((self.old.fails_in ≡ 1)
            ⊎ (file_at self.old.files name.now ≡ None)) }
        ensures count { self.new.faults ≡ faults_after_fetch self.old.faults result }
        ensures call { self.new.fails_in ≡ self.old.fails_in - 1 }
    {
        if self.plan.counts_call() {
            self.plan.counts_fault();
            return Err(FetchFault::Failed);
        }
        match self.get(name) {
            Some(bytes) => Ok(into.extend_from_slice(bytes)?),
            None => {
                self.plan.counts_fault();
                Err(FetchFault::Failed)
            }
        }
    }

    fn claim<'n>(
        &mut self,
        alloc: Global,
        names: &[&'n str],
    ) -> Result<Vec<Claim<'n, MemoryBrand>>, AllocError>
        ensures files { Some self.new.files ≡ Some self.old.files }
        ensures faults { self.new.faults ≡ self.old.faults }
        ensures claims { IfOk result (λ claims. AllZip IsFor names.now claims.items) }
        ensures asked { OnOk result (untold_names ≡ with_names (texts names.now) untold_names) }
        ensures out { OnOk result (untold_count ≡ more (length names.now) untold_count) }
        ensures unasked { OnErr result (untold_names ≡ untold_names) }
        ensures kept { OnErr result (untold_count ≡ untold_count) }

        ensures same { self.new ≡ self.old }
    {
        claims_to(alloc, &MemoryBrand { _own: () }, names)
    }

    fn read(&self, alloc: Global, claim: &mut Claim<'_, MemoryBrand>)
        requires fresh { IsFresh claim.old }
        ensures name { claim.new.name.now ≡ claim.old.name.now }
        ensures read { IsRead (Some self.now.files) claim.new }

        ensures fails { IfSome claim.new.came (λ came. IsErrOf came FetchFault.Failed
            ↔ (file_at self.now.files claim.old.name.now ≡ None)) }
    {
        let file = self.copy_of(alloc, claim.name());
        claim.fill(&MemoryBrand { _own: () }, file);
    }

    fn settle(
        &mut self,
        alloc: Global,
        claims: Vec<Claim<'_, MemoryBrand>>,
    ) -> Result<Vec<Vec<u8>>, FetchFault>
        requires read { All (IsRead (Some self.old.files)) claims.items }
        ensures files { Some self.new.files ≡ Some self.old.files }
        ensures bytes { IfOk result (λ came. AllZip (IsFileOf (Some self.old.files)) claims.entry.items came.items) }
        ensures came { IfOk result (λ came. AllZip Brings claims.entry.items came.items) }
        ensures cause { FetchCounts self.old.faults self.new.faults result }
        ensures asked { untold_names ≡ untold_names }
        ensures out { untold_count ≡ fewer (length claims.entry.items) untold_count }

        ensures count { self.new.faults ≡ faults_after_fetch self.old.faults result }
        ensures settles { Settles self.old.fails_in self.new.fails_in claims.entry.items result }
    {
        settle_each(alloc, self, claims)
    }

    fn put(&mut self, name: &str, bytes: &[u8]) -> Result<(), PutFault>
        ensures ok { OnOk result (Some self.new.files ≡ with_file name.now bytes.now (Some self.old.files)) }
        ensures err { OnErr result (Some self.new.files ≡ Some self.old.files) }
        ensures cause { PutCounts self.old.faults self.new.faults result }
        ensures asked { untold_names ≡ untold_names }
        ensures out { untold_count ≡ untold_count }

        ensures fails { IsErrOf result PutFault.Failed ↔ (self.old.fails_in ≡ 1) }
        ensures count { self.new.faults ≡ faults_after_put self.old.faults result }
        ensures call { self.new.fails_in ≡ self.old.fails_in - 1 }
    {
        self.put_pieces(name, &Whole { bytes })
    }

    fn put_pieces<P: Pieces>(&mut self, name: &str, pieces: &P) -> Result<(), PutFault>
        ensures ok { OnOk result (Some self.new.files
            ≡ with_file name.now (whole (P.view pieces.now)) (Some self.old.files)) }
        ensures err { OnErr result (Some self.new.files ≡ Some self.old.files) }
        ensures cause { PutCounts self.old.faults self.new.faults result }
        ensures asked { untold_names ≡ untold_names }
        ensures out { untold_count ≡ untold_count }

        ensures fails { IsErrOf result PutFault.Failed ↔ (self.old.fails_in ≡ 1) }
        ensures count { self.new.faults ≡ faults_after_put self.old.faults result }
        ensures call { self.new.fails_in ≡ self.old.fails_in - 1 }
    {
        if self.plan.counts_call() {
            self.plan.counts_fault();
            return Err(PutFault::Failed);
        }
        let bytes = join(self.alloc, pieces)?;
        Ok(self.keep(name, bytes)?)
    }
}

impl Counts for MemoryStore {
    ghost files = { λ s. Some s.files };

    ghost faults = { λ s. s.faults };

    ghost due = { λ s. s.fails_in };

    fn count(
        &mut self,
        name: &str,
        read: Result<Vec<u8>, FetchFault>,
    ) -> Result<Vec<u8>, FetchFault>
        requires file { IfOk read (λ file. IsFile (Some self.old.files) name.now file.items) }
        ensures files { Some self.new.files ≡ Some self.old.files }
        ensures bytes { IfOk result (λ file. IsFile (Some self.old.files) name.now file.items) }
        ensures cause { FetchCounts self.old.faults self.new.faults result }
        ensures count { self.new.faults ≡ faults_after_fetch self.old.faults result }

        ensures call { self.new.fails_in ≡ self.old.fails_in - 1 }
        ensures fails { self.old.fails_in ≡ 1 → IsErrOf result FetchFault.Failed }
        ensures given { self.old.fails_in ≢ 1 → result ≡ read }
    {
        let fails_now = self.plan.counts_call();
        match read {
            Ok(_) | Err(FetchFault::OutOfMemory) if !fails_now => read,
            _ => {
                self.plan.counts_fault();
                Err(FetchFault::Failed)
            }
        }
    }
}
