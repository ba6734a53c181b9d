//! Takes claims back, and counts what came of them, one by one.
ghost use Rattle.std.specs.Prelude.{◌≡◌, ◌≢◌, ◌-◌, ℕ, IfOk, IsErrOf, Option};
ghost use Rattle.std.specs.List.{All, AllZip};
ghost use Rattle.ports.specs.Claims.{Brings, IsFileOf, IsRead};
ghost use Rattle.ports.specs.ClaimLaws.{Settles};
ghost use Rattle.ports.specs.Counts.{FetchCounts, faults_after_fetch};
ghost use Rattle.ports.specs.Files.{Files, IsFile};

use crate::{Claim, FetchFault};
use std::alloc::Global;

/// What counts the fetches of a store.
pub(crate) trait Counts {
    // The files by name, if the store shows them.
    ghost files: { Self → Option Files };

    // How often the store has failed.
    ghost faults: { Self → ℕ };

    // Which call is set to fail, counted from the next one, which is 1; 0 means none.
    ghost due: { Self → ℕ };

    /// Counts a fetch of the file of that name, for which reading gave this result. Returns it, or that the store
    /// fails.
    fn count(
        &mut self,
        name: &str,
        read: Result<Vec<u8>, FetchFault>,
    ) -> Result<Vec<u8>, FetchFault>
        requires file { IfOk read (λ file. IsFile (files self.old) name.now file.items) }
        ensures files { files self.new ≡ files self.old }
        ensures bytes { IfOk result (λ file. IsFile (files self.old) name.now file.items) }
        ensures cause { FetchCounts (faults self.old) (faults self.new) result }
        ensures count { faults self.new ≡ faults_after_fetch (faults self.old) result }
        ensures call { due self.new ≡ due self.old - 1 }
        ensures fails { due self.old ≡ 1 → IsErrOf result FetchFault.Failed }
        ensures given { due self.old ≢ 1 → result ≡ read };
}

/// The files of these claims, or the first refusal in their order. What comes after a refusal is not counted.
pub(crate) fn settle_each<C: Counts, B>(
    alloc: Global,
    store: &mut C,
    claims: Vec<Claim<'_, B>>,
) -> Result<Vec<Vec<u8>>, FetchFault>
    requires read { All (IsRead (C.files store.old)) claims.items }
    ensures files { C.files store.new ≡ C.files store.old }
    ensures bytes { IfOk result (λ came. AllZip (IsFileOf (C.files store.old)) claims.entry.items came.items) }
    ensures came { IfOk result (λ came. AllZip Brings claims.entry.items came.items) }
    ensures cause { FetchCounts (C.faults store.old) (C.faults store.new) result }
    ensures count { C.faults store.new ≡ faults_after_fetch (C.faults store.old) result }
    ensures settles { Settles (C.due store.old) (C.due store.new) claims.entry.items result }
{
    let mut files = Vec::new(alloc);
    for claim in claims {
        let name = claim.name();
        // Each of these claims was read, so a result has come.
        let Some(read) = claim.came() else {
            return Err(FetchFault::OutOfMemory);
        };
        match store.count(name, read) {
            Ok(file) => {
                if let Err(_failed) = files.push(file) {
                    return Err(FetchFault::OutOfMemory);
                }
            }
            Err(fault) => return Err(fault),
        }
    }
    Ok(files)
}
