//! Fetches files of the store.
ghost use Rattle.std.specs.Prelude.{◌≡◌, [], ◌∷◌, IfOk, IfErr, IfSome, Some};
ghost use Rattle.ports.specs.Files.{file_at, with_names};
ghost use Rattle.command_replies.specs.Faults.{IsFetchFault, StoreCounts};

use crate::fault::CommandFault;
use ports::Store;
use std::alloc::Global;

/// The bytes of the file of that name.
pub fn whole_file<S: Store>(
    alloc: Global,
    store: &mut S,
    name: &str,
) -> Result<Vec<u8>, CommandFault>
    ensures files { S.files store.new ≡ S.files store.old }
    ensures asked { S.asked store.new ≡ with_names (name.now ∷ []) (S.asked store.old) }
    ensures cause { StoreCounts (S.faults store.old) (S.faults store.new) result }
    ensures refused { IfErr result IsFetchFault }
    ensures bytes { IfSome (S.files store.old) (λ fs. IfOk result (λ bytes. file_at fs name.now ≡ Some bytes.items)) }
    ensures out { S.out store.new ≡ S.out store.old }
{
    let mut bytes = Vec::new(alloc);
    store.fetch(name, &mut bytes)?;
    Ok(bytes)
}
