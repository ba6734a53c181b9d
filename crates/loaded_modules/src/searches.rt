//! Searches relocations by their places.

ghost use Rattle.std.specs.Prelude.{◌≡◌, ◌+◌, true, false};
ghost use Rattle.loaded_modules.specs.Places.{AllBelow, NoneBelow};

use image_file::{Image, image_is_spelled};

/// Whether the relocation of a number has its place below an address. Places rise: if so, all relocations before it are
/// below too; if not, none after it is.
fn is_below(image: &Image, number: u64, address: u128) -> bool
    ensures below { result ≡ true → AllBelow image.now.relocations (number + 1) address }
    ensures above { result ≡ false → NoneBelow image.now.relocations number address }
{
    image_is_spelled(image);
    match image.relocation(number) {
        Some(relocation) => u128::from(relocation.place) < address,
        None => false,
    }
}

/// How many relocations of an image have their places below an address; they are the first ones.
pub(crate) fn relocations_below(image: &Image, address: u128) -> u64
    ensures below { AllBelow image.now.relocations result address }
    ensures above { NoneBelow image.now.relocations result address }
{
    let mut low = 0;
    let mut high = image.relocation_count();
    while low < high {
        let middle = low + (high - low) / 2;
        if is_below(image, middle, address) {
            low = middle + 1;
        } else {
            high = middle;
        }
    }
    low
}
