//! Why a relocation may be refused.

ghost use Rattle.std.specs.Prelude.{◌≡◌, ◌≢◌, ◌<◌, length};
ghost use Rattle.elf_object.specs.Parts.{symbol_count};
ghost use Rattle.tls_symbols.specs.Bindings.{binding_of, object_at};
ghost use Rattle.link_needs.specs.Refusals.{asks_storage, is_refused};
ghost use Rattle.link_needs.specs.RefusalLaws.{asks_among, test_of};
ghost use Rattle.link_needs.specs.RefusalLaws.{IsAbout, IsAskedIn, IsAskedWithin};
ghost use Rattle.link_faults.specs.Bindings.{is_here};

use elf_object::{Object, Relocation, RelocationKind, Traits};
use elf_records::relocation_row::{Refused, TableEntry};
use link_faults::{Binding, ImageKind, LinkFaultKind};
use tls_symbols::{Bindings, Question, Use};

/// A question about the relocations of an image.
#[derive(Clone, Copy)]
pub enum Charge<'b, 'l, 's, 'a> {
    /// Does the kind of the image refuse its type, with this fault?
    ByType(LinkFaultKind, ImageKind),
    /// Does it ask for storage of the image itself, which has none?
    ByStorage(ImageKind, &'b Bindings<'l, 's, 'a>),
}

/// Whether an image of this kind refuses relocations of a type with this fault.
fn is_refused(fault: LinkFaultKind, image: ImageKind, kind: RelocationKind) -> bool
    ensures { result ≡ is_refused fault image kind }
{
    match (fault, kind.row().refused) {
        (LinkFaultKind::LocalExecInModule, Refused::InModule) => image.is_module(),
        (LinkFaultKind::NarrowInModule, Refused::WhereMoved) => image.is_moved(),
        _ => false,
    }
}

/// Whether a relocation is bound to a symbol of the image itself.
fn is_here(bindings: &Bindings, index: usize, relocation: &Relocation) -> bool
    requires object { index < length bindings.now.objects }
    requires symbol { relocation.now.symbol < symbol_count (object_at bindings.now.objects index) }
    ensures { result ≡ is_here (binding_of bindings.now.objects bindings.now.startup index relocation.now) }
{
    matches!(
        bindings.binding_of(index, relocation),
        Some(Binding::Here(_))
    )
}

/// Whether a relocation asks for storage of the image itself.
fn asks_storage(
    bindings: &Bindings,
    image: ImageKind,
    index: usize,
    relocation: &Relocation,
) -> bool
    requires object { index < length bindings.now.objects }
    requires symbol { relocation.now.kind ≢ RelocationKind.Nothing
        → relocation.now.symbol < symbol_count (object_at bindings.now.objects index) }
    ensures { result ≡ asks_storage image relocation.now.kind
        (binding_of bindings.now.objects bindings.now.startup index relocation.now) }
{
    match relocation.kind.row().entry {
        TableEntry::ModulePair => true,
        TableEntry::SymbolPair | TableEntry::SymbolWord => {
            image.is_module() && is_here(bindings, index, relocation)
        }
        TableEntry::Descriptor => is_here(bindings, index, relocation),
        TableEntry::NoEntry | TableEntry::AddressWord => false,
    }
}

impl Charge<'_, '_, '_, '_> {
    /// Whether it may be about one of the relocations with these traits.
    fn asks_among(&self, traits: Traits) -> bool
        ensures { result ≡ asks_among self.now traits }
    {
        match self {
            Charge::ByType(LinkFaultKind::LocalExecInModule, image) => {
                traits.in_module && image.is_module()
            }
            Charge::ByType(LinkFaultKind::NarrowInModule, image) => {
                traits.where_moved && image.is_moved()
            }
            Charge::ByType(_, _) => false,
            Charge::ByStorage(_, _) => traits.reaches_storage,
        }
    }

    /// Whether it is about a relocation of an object.
    fn asks_of(&self, found: &Use) -> bool
        requires { IsAskedWithin self.now found.now }
        ensures { result ≡ test_of self.now found.now.place.object found.now.relocation }
    {
        let kind = found.relocation.kind;
        match self {
            Charge::ByType(fault, image) => is_refused(*fault, *image, kind),
            Charge::ByStorage(image, bindings) => {
                let object = found.place.object as usize;
                asks_storage(bindings, *image, object, &found.relocation)
            }
        }
    }
}

impl Question for Charge<'_, '_, '_, '_> {
    ghost about = { IsAbout };

    ghost may_ask = { IsAskedWithin };

    ghost may_ask_in = { IsAskedIn };

    fn may_be_in(&self, _number: usize, object: &Object) -> bool {
        self.asks_among(object.traits())
    }

    fn is_about(&self, found: &Use) -> bool {
        self.asks_of(found)
    }
}
