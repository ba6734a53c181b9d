//! A relocation of an image (gABI, "Relocation").

ghost use Rattle.std.specs.Prelude.{◌≡◌};
ghost use Rattle.image_file.specs.Spelled.{relocation_of};

use elf_records::Rela;
use image_faults::LoaderKind;

/// A relocation that a loader carries out.
#[derive(Clone, Copy, PartialEq, Eq, Debug)]
pub struct ImageRelocation {
    /// The address of the bytes that it writes, before the image is moved.
    pub place: u64,
    pub kind: LoaderKind,
    /// The number of the symbol, or 0.
    pub symbol: u32,
    /// The addend.
    pub addend: i64,
}

/// The relocation of an entry of the table.
#[tactic(auto, unfolding(crate::specs::Spelled::relocation_of))]
pub fn relocation_of(entry: Rela) -> ImageRelocation
    ensures { result ≡ relocation_of entry }
{
    ImageRelocation {
        place: entry.offset,
        kind: LoaderKind::numbered(entry.kind()).unwrap_or(LoaderKind::Relative),
        symbol: entry.symbol(),
        addend: entry.addend,
    }
}
