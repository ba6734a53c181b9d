//! Whether a symbol is thread-local, by its place.

ghost use Rattle.std.specs.Prelude.{◌≡◌};
ghost use Rattle.elf_object.specs.Lent.{is_tls_place};

use crate::{Object, SectionClass, SymbolPlace};

/// Whether a symbol with this place is thread-local: it is in a section of thread-local storage.
#[tactic(auto, using(crate::proofs::Sections::past_class))]
pub fn is_tls_place(object: &Object, place: SymbolPlace) -> bool
    ensures { result ≡ is_tls_place object.now place }
{
    match place {
        SymbolPlace::InSection(number) => match object.section(number) {
            Some(part) => matches!(part.class, Some(SectionClass::Tls { .. })),
            None => false,
        },
        _ => false,
    }
}
