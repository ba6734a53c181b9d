//! What an image refuses of the relocations of its objects, and how many it may have.

ghost use Rattle.std.specs.Prelude.{◌≡◌, ◌≤◌, ◌↔◌, IsTrue, MatchOption, MatchResult};
ghost use Rattle.std.specs.List.{All};
ghost use Rattle.elf_object.specs.Faults.{IsObject};
ghost use Rattle.link_needs.specs.Refusals.{FitsKind, FitsStorage};
ghost use Rattle.link_needs.specs.RefusalLaws.{test_of, IsAskedOf, IsKindFault, IsStorageFault};
ghost use Rattle.elf_object.specs.Counts.{relocation_count};
ghost use Rattle.tls_symbols.specs.Faults.{IsFirstCharged, NoneCharged};

use crate::charge::Charge;
use elf_object::{Object, relocation_count};
use link_faults::{ImageKind, LinkFault, LinkFaultKind, Place};
use tls_symbols::{Bindings, first_use};

/// The most relocations that an image may have.
pub const MAX_RELOCATIONS: u128 = 1 << 19;

/// The first relocation of the objects that the question is about, if there is one.
#[tactic(auto, using(crate::proofs::Asked::may_ask))]
fn first_place(charge: &Charge, objects: &[Object]) -> Option<Place>
    requires { IsAskedOf objects.now charge.now }
    ensures { MatchOption result (NoneCharged (test_of charge.now) objects.now)
        (λ place. IsFirstCharged (test_of charge.now) objects.now place.object place.section place.entry) }
{
    first_use(charge, objects)
}

/// Tests whether an image of these objects may be of this kind. The code of a module may hold no offset from the thread
/// pointer, and an image that may be loaded at any address may hold no address in 32 bits. The error is the first
/// fault: `LocalExecInModule`, else `NarrowInModule`, at the first object, section and entry.
pub fn ask_kind(objects: &[Object], kind: ImageKind) -> Result<(), LinkFault>
    ensures { MatchResult result (λ _. FitsKind objects.now kind) (IsKindFault objects.now kind) }
{
    let local_exec = Charge::ByType(LinkFaultKind::LocalExecInModule, kind);
    if let Some(place) = first_place(&local_exec, objects) {
        return Err(place.fault(LinkFaultKind::LocalExecInModule));
    }
    let narrow = Charge::ByType(LinkFaultKind::NarrowInModule, kind);
    match first_place(&narrow, objects) {
        Some(place) => Err(place.fault(LinkFaultKind::NarrowInModule)),
        None => Ok(()),
    }
}

/// Tests whether an image of these objects has the thread-local storage that its code asks for. `tls_size` is the size
/// of its TLS segment; `bindings` are those of the objects. The error is the fault `NoTls` at the first object, section
/// and entry.
pub fn ask_tls(
    objects: &[Object],
    bindings: &Bindings,
    kind: ImageKind,
    tls_size: u64,
) -> Result<(), LinkFault>
    requires own { bindings.now.objects ≡ objects.now }
    ensures { MatchResult result
        (λ _. FitsStorage bindings.now.objects bindings.now.startup kind tls_size)
        (IsStorageFault bindings.now.objects bindings.now.startup kind tls_size) }
{
    if tls_size != 0 {
        return Ok(());
    }
    match first_place(&Charge::ByStorage(kind, bindings), objects) {
        Some(place) => Err(place.fault(LinkFaultKind::NoTls)),
        None => Ok(()),
    }
}

/// Whether the objects have at most [`MAX_RELOCATIONS`] relocations.
pub fn has_few_relocations(objects: &[Object]) -> bool
    ensures few { IsTrue result ↔ (relocation_count objects.now ≤ MAX_RELOCATIONS) }
    ensures objects { All IsObject objects.now }
{
    relocation_count(objects) <= MAX_RELOCATIONS
}
