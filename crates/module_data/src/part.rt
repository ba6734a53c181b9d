//! Which part of an image is data.

ghost use Rattle.std.specs.Prelude.{◌≡◌, ◌<◌, ◌^◌, IfSome, option_map, slice_get};
ghost use Rattle.module_data.specs.Parts.{data_number, data_part, data_start, is_data_part, is_number};

use image_file::{Image, image_is_spelled};
use loaded_modules::{Instance, Modules};

fn is_number(part: Option<u64>, number: u64) -> bool
    ensures { result ≡ is_number part number }
{
    match part {
        Some(other) => other == number,
        None => false,
    }
}

/// Whether programs write a part: it is writable, and not the one that only the loader writes.
#[tactic(auto, unfolding(crate::specs::Parts::is_data_part))]
fn is_data_part(image: &Image, number: u64) -> bool
    ensures { result ≡ is_data_part image.now number }
{
    match image.part(number) {
        Some(part) => part.class.is_writable() && !is_number(image.got(), number),
        None => false,
    }
}

/// The number of the first part that programs write, if there is one.
#[tactic(auto, unfolding(crate::specs::Parts::data_part))]
pub fn data_part(image: &Image) -> Option<u64>
    ensures { result ≡ data_part image.now }
{
    for number in 0..image.part_count() {
        if is_data_part(image, number) {
            return Some(number);
        }
    }
    None
}

/// That number for the image of an instance.
pub(crate) fn data_number(modules: &Modules, instance: &Instance) -> Option<u64>
    ensures { result ≡ data_number modules.now instance.now }
{
    data_part(modules.image(instance.image)?)
}

/// The address of a part of an image, before the image is moved.
fn address_of(image: &Image, part: u64) -> Option<u64>
    ensures value { result ≡ option_map (λ part. part.address) (slice_get image.now.parts part) }
    ensures low { IfSome result (λ address. address < 2 ^ 32) }
{
    image_is_spelled(image);
    let part = image.part(part)?;
    let address = part.address;
    Some(address)
}

/// The address of the first byte of an instance's data, if its image has any.
#[tactic(auto, unfolding(crate::specs::Parts::data_start, loaded_modules::specs::LoaderLaws::bias_of))]
pub(crate) fn data_start(modules: &Modules, instance: &Instance) -> Option<u64>
    ensures { result ≡ data_start modules.now instance.now }
{
    let image = modules.image(instance.image)?;
    let address = address_of(image, data_part(image)?)?;
    Some(modules.bias(instance) + address)
}
