//! The parts of images, as instances have them.

ghost use Rattle.std.specs.Prelude.{◌≡◌, ◌+◌, ◌^◌, ◌<◌, ◌≤◌, true, Some, length, nat_le, option_map, slice_get, ◌==◌, false};
ghost use Rattle.std.specs.List.{list_any};
ghost use Rattle.guest_operands.specs.Ranges.{byte_in};
ghost use Rattle.loaded_modules.specs.Images.{image_at};
ghost use Rattle.loaded_modules.specs.LoaderLaws.{bias_of, loaded_part};
ghost use Rattle.thread_blocks.specs.Instances.{fixed_of};
ghost use Rattle.thread_blocks.specs.JobLoads.{job_loads, parts_from, written_from};
ghost use Rattle.thread_blocks.specs.RunTime.{has_words};
ghost use Rattle.thread_space.specs.Kept.{live_in};
ghost use Rattle.thread_space.specs.OfParts.{allows_fixed, byte_of_part, fixed_ranges, is_near, part_has_words};
ghost use Rattle.thread_space.specs.Places.{behind};
ghost use Rattle.image_names.specs.Functions.{is_code};
ghost use Rattle.std.specs.Option.{option_map_or};

use crate::space::ThreadSpace;
use guest_machine::Access;
use image_file::{Image, PartClass, image_is_spelled};
use loaded_modules::Instance;

/// The size of a question to the run time: two words.
const WORDS: u64 = 16;

/// The end of an image's parts before the load bias is added is at most this. The load bias grows by 2^26 from
/// instance to instance, so an address is near at most three instances.
const PARTS_END: u128 = 1 << 27;

pub(crate) fn is_code(class: PartClass) -> bool
    ensures { result ≡ is_code class }
{
    matches!(class, PartClass::Executable)
}

/// Whether a part is the one that only the loader writes.
fn is_loaders(got: Option<u64>, number: u64) -> bool
    ensures { result ≡ option_map_or (λ own. own == number) got false }
{
    match got {
        Some(got) => got == number,
        None => false,
    }
}

/// Whether no thread writes the part, and its class allows the access.
fn allows_fixed(access: Access, class: PartClass, is_loaders: bool) -> bool
    ensures { result ≡ allows_fixed access class is_loaders }
{
    match access {
        Access::Read => !is_code(class) && !(class.is_writable() && !is_loaders),
        Access::Write => false,
        Access::Run => is_code(class),
    }
}

/// The offset of an address from the start of a part with this load bias, unless it lies before the start.
pub(crate) fn behind_part(start: u64, bias: u64, place: u64) -> Option<u64>
    ensures { result ≡ behind (start + bias) place }
{
    let place = place.checked_sub(bias)?;
    place.checked_sub(start)
}

/// Whether an image with this load bias may have a part at one of the 15 addresses from `place` on. This takes two
/// comparisons, and a walk over its parts many more: most live instances are far from an address.
pub(crate) fn is_near(bias: u64, place: u64) -> bool
    ensures { result ≡ is_near bias place }
{
    let bias = u128::from(bias);
    let place = u128::from(place);
    bias < place + 15 && place < bias + PARTS_END
}

/// Whether two words at this offset lie within `size` bytes.
fn has_room(size: u64, at: u64) -> bool
    ensures { result ≡ nat_le (at + 16) size }
{
    size >= WORDS && at <= size - WORDS
}

impl<'m> ThreadSpace<'m> {
    /// The image of an instance.
    pub(crate) fn image_of(&self, instance: &Instance) -> Option<&Image>
        ensures { option_map (λ image. image.now) result ≡ image_at self.now.vector.images instance.now.image }
    {
        self.modules.image(instance.image)
    }

    /// The load bias of an instance: less than 2^59.
    pub(crate) fn bias(&self, instance: &Instance) -> u64
        ensures value { result ≡ bias_of self.now.vector.images instance.now }
        ensures low { result < 2 ^ 59 }
    {
        self.modules.bias(instance)
    }

    /// The size of a part of an instance, in bytes.
    pub(crate) fn part_size(&self, instance: &Instance, number: u64) -> u64
        ensures { result ≡ length (loaded_part self.now.vector.images instance.now number) }
    {
        self.modules.part_size(instance, number)
    }

    /// The byte at an offset in a part of an instance, as the loader leaves it.
    fn loaded_byte(&self, instance: &Instance, number: u64, at: u64) -> Option<u8>
        ensures { result ≡ slice_get (loaded_part self.now.vector.images instance.now number) at }
    {
        if at >= self.modules.part_size(instance, number) {
            return None;
        }
        let mut byte = [0];
        self.modules.copy_bytes(instance, number, at, &mut byte);
        Some(byte[0])
    }

    /// The byte at an address in a part of an instance, if the part allows the access and no thread writes it.
    fn byte_of_part(
        &self,
        image: &Image,
        instance: &Instance,
        number: u64,
        access: Access,
        place: u64,
    ) -> Option<u8>
        requires there { image_at self.now.vector.images instance.now.image ≡ Some image.now }
        ensures { result ≡ byte_of_part self.now.vector.images image.now instance.now number access place
            (slice_get image.now.parts number) }
    {
        let Some(part) = image.part(number) else {
            return None;
        };
        if !allows_fixed(access, part.class, is_loaders(image.got(), number)) {
            return None;
        }
        match behind_part(part.address, self.bias(instance), place) {
            Some(at) => self.loaded_byte(instance, number, at),
            None => None,
        }
    }

    /// The same for all parts of its image.
    fn byte_of_image(
        &self,
        image: &Image,
        instance: &Instance,
        access: Access,
        place: u64,
    ) -> Option<u8>
        requires there { image_at self.now.vector.images instance.now.image ≡ Some image.now }
        ensures { result ≡ byte_in access
            (fixed_ranges (parts_from self.now.vector.images image.now instance.now 0 image.now.parts)) place }
    {
        for number in 0..image.part_count() {
            if let Some(byte) = self.byte_of_part(image, instance, number, access, place) {
                return Some(byte);
            }
        }
        None
    }

    /// The byte at an address in the parts of an instance that no thread writes, if it allows the access.
    fn part_byte(&self, instance: &Instance, access: Access, place: u64) -> Option<u8>
        ensures { result ≡ byte_in access ((job_loads self.now.vector.images).fixed instance.now) place }
    {
        let Some(image) = self.image_of(instance) else {
            return None;
        };
        image_is_spelled(image);
        if !is_near(self.bias(instance), place) {
            return None;
        }
        self.byte_of_image(image, instance, access, place)
    }

    /// The same for all live instances.
    pub(crate) fn fixed_byte(&self, access: Access, place: u64) -> Option<u8>
        ensures { result ≡ byte_in access (fixed_of (job_loads self.now.vector.images)
            (live_in self.now.vector.images self.now.vector.past)) place }
    {
        for instance in &self.live {
            if let Some(byte) = self.part_byte(instance, access, place) {
                return Some(byte);
            }
        }
        None
    }

    /// Whether a part of an instance is written, and holds the 16 bytes from an address on.
    fn part_has_words(&self, image: &Image, instance: &Instance, number: u64, address: u64) -> bool
        requires there { image_at self.now.vector.images instance.now.image ≡ Some image.now }
        ensures found { result ≡ part_has_words self.now.vector.images image.now instance.now number address
            (slice_get image.now.parts number) }
        ensures low { result ≡ true → address + 16 ≤ 2 ^ 64 }
    {
        image_is_spelled(image);
        let Some(part) = image.part(number) else {
            return false;
        };
        if !part.class.is_writable() {
            return false;
        }
        match behind_part(part.address, self.bias(instance), address) {
            Some(at) => has_room(self.part_size(instance, number), at),
            None => false,
        }
    }

    /// The same for all parts of its image.
    fn image_has_words(&self, image: &Image, instance: &Instance, address: u64) -> bool
        requires there { image_at self.now.vector.images instance.now.image ≡ Some image.now }
        ensures found { result ≡ list_any (has_words address) (written_from image.now.parts
            (parts_from self.now.vector.images image.now instance.now 0 image.now.parts)) }
        ensures low { result ≡ true → address + 16 ≤ 2 ^ 64 }
    {
        for number in 0..image.part_count() {
            if self.part_has_words(image, instance, number, address) {
                return true;
            }
        }
        false
    }

    /// Whether one of the written parts of an instance holds the 16 bytes from an address on.
    pub(crate) fn has_words(&self, instance: &Instance, address: u64) -> bool
        ensures found { result ≡ list_any (has_words address) ((job_loads self.now.vector.images).tables instance.now) }
        ensures low { result ≡ true → address + 16 ≤ 2 ^ 64 }
    {
        match self.image_of(instance) {
            Some(image) => self.image_has_words(image, instance, address),
            None => false,
        }
    }
}
