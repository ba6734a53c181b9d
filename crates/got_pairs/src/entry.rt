//! The contents of an entry.
ghost use Rattle.std.specs.Prelude.{◌≡◌, ◌*◌, length, if◌then◌else◌};
ghost use Rattle.got_pairs.specs.declared.entry.DynamicKind.TheVariants.{DtpMod64, Relative, TlsDesc, TpOff64};
ghost use Rattle.got_pairs.specs.declared.entry.DynamicSymbol.TheVariants.{Image, Imported};
ghost use Rattle.got_pairs.specs.declared.entry.Entry.TheVariants.{One, Two};
ghost use Rattle.got_pairs.specs.Entries.{entry_of, held, less, loaded, words};
ghost use Rattle.got_pairs.specs.Needs.{size_of};
ghost use Rattle.link_faults.specs.ImageKinds.{is_module, is_moved};

use crate::name::Name;
use crate::need::{Need, Target};
use link_faults::ImageKind;

/// A dynamic relocation's type: what the loader writes. It writes one word, except that a descriptor takes two.
#[derive(Clone, Copy, PartialEq, Eq, Debug)]
pub enum DynamicKind {
    /// The address of a function (R_X86_64_JUMP_SLOT).
    JumpSlot,
    /// The addend plus how far the image was moved (R_X86_64_RELATIVE).
    Relative,
    /// The id of the module that has the symbol (R_X86_64_DTPMOD64).
    DtpMod64,
    /// The symbol's offset in its module's TLS segment (R_X86_64_DTPOFF64).
    DtpOff64,
    /// The symbol's offset from the thread pointer (R_X86_64_TPOFF64).
    TpOff64,
    /// A TLS descriptor: a function and its argument, which together give the symbol's offset from the thread
    /// pointer (R_X86_64_TLSDESC).
    TlsDesc,
}

/// The symbol of a dynamic relocation.
#[derive(PartialEq, Eq, Debug, Drop)]
pub enum DynamicSymbol<'a> {
    /// No symbol: the image itself; the addend is the offset.
    Image,
    /// A variable that a startup image exports by this name.
    Imported(Name<'a>),
    /// `__tls_get_addr`.
    Runtime,
}

/// A dynamic relocation of a word of the table.
#[derive(PartialEq, Eq, Debug, Drop)]
pub struct DynamicRelocation<'a> {
    pub kind: DynamicKind,
    pub symbol: DynamicSymbol<'a>,
    /// Modulo 2^64.
    pub addend: u64,
}

/// A word of the table as it stands in the file, and the relocation for it.
#[derive(PartialEq, Eq, Debug, Drop)]
pub struct Word<'a> {
    pub number: u64,
    pub relocation: Option<DynamicRelocation<'a>>,
}

/// An entry: one word, or two.
#[derive(PartialEq, Eq, Debug, Drop)]
pub enum Entry<'a> {
    One(Word<'a>),
    Two(Word<'a>, Word<'a>),
}

/// The entry for a need, in an image of this kind. `block_offset` is how far below the thread pointer the program's
/// block begins; a module's entries do not depend on it.
pub fn entry_of<'a>(kind: ImageKind, block_offset: u64, need: &Need<'a>) -> Entry<'a>
    ensures row { result ≡ entry_of kind block_offset need.now }
    ensures size { 8 * length (words result) ≡ size_of need.now }
{
    match need {
        Need::ModulePair => own_pair(kind, 0),
        Need::SymbolPair(Target::Here { offset, .. }) => own_pair(kind, *offset),
        Need::SymbolPair(Target::Import(name)) => Entry::Two(
            filled(DynamicKind::DtpMod64, imported(name), 0),
            filled(DynamicKind::DtpOff64, imported(name), 0),
        ),
        Need::Descriptor(Target::Here { offset, .. }) => descriptor(DynamicSymbol::Image, *offset),
        Need::Descriptor(Target::Import(name)) => descriptor(imported(name), 0),
        Need::SymbolWord(Target::Here { offset, .. }) => own_offset(kind, block_offset, *offset),
        Need::SymbolWord(Target::Import(name)) => {
            Entry::One(filled(DynamicKind::TpOff64, imported(name), 0))
        }
        Need::AddressWord { place, .. } => own_address(kind, *place),
        Need::RuntimeWord => Entry::One(filled(DynamicKind::JumpSlot, DynamicSymbol::Runtime, 0)),
    }
}

/// The pair of the image's own module id and an offset. A program is module 1.
fn own_pair<'a>(kind: ImageKind, offset: u64) -> Entry<'a>
    ensures { result ≡ Two (if is_module kind then loaded 0 DtpMod64 Image 0 else held 1) (held offset) }
{
    let id = match kind {
        ImageKind::Exe | ImageKind::Pie => held(1),
        ImageKind::Start | ImageKind::Late => {
            filled(DynamicKind::DtpMod64, DynamicSymbol::Image, 0)
        }
    };
    Entry::Two(id, held(offset))
}

/// A TLS descriptor: the loader writes both words.
fn descriptor<'a>(symbol: DynamicSymbol<'a>, addend: u64) -> Entry<'a>
    ensures { result ≡ Two (loaded 0 TlsDesc symbol.entry addend) (held 0) }
{
    Entry::Two(filled(DynamicKind::TlsDesc, symbol, addend), held(0))
}

/// The offset from the thread pointer of a variable of the image itself. A program knows where its block lies.
fn own_offset<'a>(kind: ImageKind, block_offset: u64, offset: u64) -> Entry<'a>
    ensures { result ≡ One (if is_module kind then loaded 0 TpOff64 Image offset else held (less offset block_offset)) }
{
    Entry::One(match kind {
        ImageKind::Exe | ImageKind::Pie => held(offset.wrapping_sub(block_offset)),
        ImageKind::Start | ImageKind::Late => {
            filled(DynamicKind::TpOff64, DynamicSymbol::Image, offset)
        }
    })
}

/// The address of a symbol of the image itself. It stands in the file, and the loader adds how far it moved the image.
fn own_address<'a>(kind: ImageKind, place: u64) -> Entry<'a>
    ensures { result ≡ One (if is_moved kind then loaded place Relative Image place else held place) }
{
    Entry::One(match kind {
        ImageKind::Exe => held(place),
        ImageKind::Pie | ImageKind::Start | ImageKind::Late => {
            loaded(place, DynamicKind::Relative, DynamicSymbol::Image, place)
        }
    })
}

/// The symbol of another image.
fn imported<'a>(name: &Name<'a>) -> DynamicSymbol<'a>
    ensures { result ≡ Imported name.now }
{
    DynamicSymbol::Imported(name.again())
}

/// A number that the linker knows.
fn held<'a>(number: u64) -> Word<'a>
    ensures { result ≡ held number }
{
    Word {
        number,
        relocation: None,
    }
}

/// A word that the loader writes; it is 0 in the file.
fn filled<'a>(kind: DynamicKind, symbol: DynamicSymbol<'a>, addend: u64) -> Word<'a>
    ensures { result ≡ loaded 0 kind symbol.entry addend }
{
    loaded(0, kind, symbol, addend)
}

/// A number in the file that the loader overwrites.
fn loaded<'a>(number: u64, kind: DynamicKind, symbol: DynamicSymbol<'a>, addend: u64) -> Word<'a>
    ensures { result ≡ loaded number kind symbol.entry addend }
{
    Word {
        number,
        relocation: Some(DynamicRelocation {
            kind,
            symbol,
            addend,
        }),
    }
}
