//! Files by name.
ghost use Rattle.std.specs.Prelude.{◌≡◌, ℕ, List, [], ◌∷◌, ◌++◌, length, take};
ghost use Rattle.std.specs.Prelude.{Option, IsErr, OnOk, OnErr, IfOk, IfSome, MatchOption};
ghost use Rattle.std.specs.List.{All, AllZip};
ghost use Rattle.ports.specs.Claims.{Brings, IsFileOf, IsFor, IsFresh, IsRead, fewer, more, texts};
ghost use Rattle.ports.specs.Counts.{FetchCounts, PutCounts};
ghost use Rattle.ports.specs.Files.{Files, file_at, with_file, with_names};
ghost use Rattle.file_bytes.specs.Pieces.{whole};

use crate::{Claim, FetchFault, PutFault};
use file_bytes::Pieces;
use std::alloc::{AllocError, Global};

/// Files by name: where jobs and objects come from, and where an image goes.
///
/// A store that shows its files (`files` is `Some`) has exactly those: a name that is not among them cannot be
/// fetched, a fetch changes none of them, and a put changes only the file of that name.
///
/// No file is read whose name was not asked for: `fetch` asks for one name, and `claim` for several at once, each of
/// which `read` may then read once. Every claim goes back by `settle`.
pub trait Store: Sync {
    /// What tells the claims of this store from those of another.
    type Brand: Send;

    // The files by name, if the store shows them.
    ghost files: { Self → Option Files };

    // How often the store has failed.
    ghost faults: { Self → ℕ };

    // The names asked for so far, refused ones too, in order, if the store shows them. No store has to; code over any
    // store is proved for one that does, so its clauses can say which names it asks for.
    ghost asked: { Self → Option (List (List ℕ)) };

    // How many claims are out, if the store shows it. No store has to, as above.
    ghost out: { Self → Option ℕ };

    /// Appends the bytes of the file of that name. On a refusal `into` is as before. If the store shows its files, a
    /// name that is not among them is refused.
    fn fetch(&mut self, name: &str, into: &mut Vec<u8>) -> Result<(), FetchFault>
        ensures files { files self.new ≡ files self.old }
        ensures bytes { IfSome (files self.old) (λ fs. MatchOption (file_at fs name.now)
            (IsErr result) (λ b. OnOk result (into.new.items ≡ into.old.items ++ b))) }
        ensures appends { take (length into.old.items) into.new.items ≡ into.old.items }
        ensures kept { OnErr result (into.new.items ≡ into.old.items) }
        ensures cause { FetchCounts (faults self.old) (faults self.new) result }
        ensures asked { asked self.new ≡ with_names (name.now ∷ []) (asked self.old) }
        ensures out { out self.new ≡ out self.old };

    /// Asks for the files of these names: gives out a claim to each, in their order, or none.
    fn claim<'n>(
        &mut self,
        alloc: Global,
        names: &[&'n str],
    ) -> Result<Vec<Claim<'n, Self::Brand>>, AllocError>
        ensures files { files self.new ≡ files self.old }
        ensures faults { faults self.new ≡ faults self.old }
        ensures claims { IfOk result (λ claims. AllZip IsFor names.now claims.items) }
        ensures asked { OnOk result (asked self.new ≡ with_names (texts names.now) (asked self.old)) }
        ensures out { OnOk result (out self.new ≡ more (length names.now) (out self.old)) }
        ensures unasked { OnErr result (asked self.new ≡ asked self.old) }
        ensures kept { OnErr result (out self.new ≡ out self.old) };

    /// Reads the file of a claim's name, once. Threads may share the store. The claim holds what came, which nobody
    /// sees before it is settled.
    fn read(&self, alloc: Global, claim: &mut Claim<'_, Self::Brand>)
        requires fresh { IsFresh claim.old }
        ensures name { claim.new.name.now ≡ claim.old.name.now }
        ensures read { IsRead (files self.now) claim.new };

    /// Takes claims back: gives their files, or the first refusal in their order, which it counts. What was read after
    /// a refusal is not counted.
    fn settle(
        &mut self,
        alloc: Global,
        claims: Vec<Claim<'_, Self::Brand>>,
    ) -> Result<Vec<Vec<u8>>, FetchFault>
        requires read { All (IsRead (files self.old)) claims.items }
        ensures files { files self.new ≡ files self.old }
        ensures bytes { IfOk result (λ came. AllZip (IsFileOf (files self.old)) claims.entry.items came.items) }
        ensures came { IfOk result (λ came. AllZip Brings claims.entry.items came.items) }
        ensures cause { FetchCounts (faults self.old) (faults self.new) result }
        ensures asked { asked self.new ≡ asked self.old }
        ensures out { out self.new ≡ fewer (length claims.entry.items) (out self.old) };

    /// Makes these bytes the whole content of the file of that name, new or not. On a refusal the files are as before.
    fn put(&mut self, name: &str, bytes: &[u8]) -> Result<(), PutFault>
        ensures ok { OnOk result (files self.new ≡ with_file name.now bytes.now (files self.old)) }
        ensures err { OnErr result (files self.new ≡ files self.old) }
        ensures cause { PutCounts (faults self.old) (faults self.new) result }
        ensures asked { asked self.new ≡ asked self.old }
        ensures out { out self.new ≡ out self.old };

    /// Makes the bytes of these pieces the whole content of the file of that name, as `put` does, but asks for them
    /// piece by piece.
    fn put_pieces<P: Pieces>(&mut self, name: &str, pieces: &P) -> Result<(), PutFault>
        ensures ok { OnOk result (files self.new
            ≡ with_file name.now (whole (P.view pieces.now)) (files self.old)) }
        ensures err { OnErr result (files self.new ≡ files self.old) }
        ensures cause { PutCounts (faults self.old) (faults self.new) result }
        ensures asked { asked self.new ≡ asked self.old }
        ensures out { out self.new ≡ out self.old };
}
