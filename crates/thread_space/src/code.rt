//! Fetches of 15 bytes of code at once.

ghost use Rattle.std.specs.Prelude.{◌≡◌, ◌+◌, ◌≤◌, true, Some, is_some, length, slice_get, slice_range};
ghost use Rattle.std.specs.List.{find};
ghost use Rattle.guest_arithmetic.specs.Plain.{plain_operations};
ghost use Rattle.guest_operands.specs.Access.{fetch_of};
ghost use Rattle.guest_operands.specs.RangeLaws.{range_accesses};
ghost use Rattle.loaded_modules.specs.Images.{image_at};
ghost use Rattle.loaded_modules.specs.LoaderLaws.{loaded_part};
ghost use Rattle.thread_space.specs.Fetching.{Copies, code_number, first_code, meets, part_meets};
ghost use Rattle.thread_space.specs.Kept.{live_in, memory_of};

use crate::parts::{behind_part, is_code, is_near};
use crate::space::ThreadSpace;
use image_file::{Image, image_is_spelled};
use loaded_modules::Instance;

/// How many bytes are fetched at once.
const WINDOW: u64 = 15;

/// Whether `size` bytes from `start` on, moved by `bias`, hold one of the 15 addresses from `place` on.
fn meets(start: u64, bias: u64, size: u64, place: u64) -> bool
    ensures { result ≡ meets (start + bias) size place }
{
    let start = u128::from(start) + u128::from(bias);
    let place = u128::from(place);
    start < place + u128::from(WINDOW) && place < start + u128::from(size)
}

impl<'m> ThreadSpace<'m> {
    /// Whether a part of an instance is code, and holds one of the 15 addresses from `place` on.
    fn part_meets(&self, image: &Image, instance: &Instance, number: u64, place: u64) -> bool
        requires there { image_at self.now.vector.images instance.now.image ≡ Some image.now }
        ensures { result ≡ part_meets self.now.vector.images image.now instance.now place
            (slice_get image.now.parts number) }
    {
        let Some(part) = image.part(number) else {
            return false;
        };
        if !is_code(part.class) {
            return false;
        }
        let size = self.part_size(instance, number);
        meets(part.address, self.bias(instance), size, place)
    }

    /// The number of the first such part of an image.
    fn first_code(&self, image: &Image, instance: &Instance, place: u64) -> Option<u64>
        requires there { image_at self.now.vector.images instance.now.image ≡ Some image.now }
        ensures { result ≡ first_code self.now.vector.images image.now instance.now place 0 image.now.parts }
    {
        for number in 0..image.part_count() {
            if self.part_meets(image, instance, number, place) {
                return Some(number);
            }
        }
        None
    }

    /// The same for the image of an instance.
    fn code_number(&self, instance: &Instance, place: u64) -> Option<u64>
        ensures { result ≡ code_number self.now.vector.images place instance.now }
    {
        let Some(image) = self.image_of(instance) else {
            return None;
        };
        image_is_spelled(image);
        if !is_near(self.bias(instance), place) {
            return None;
        }
        self.first_code(image, instance, place)
    }

    /// The first live instance with such a part.
    fn code_at(&self, place: u64) -> Option<Instance>
        ensures { result ≡ find (λ x. is_some (code_number self.now.vector.images place x))
            (live_in self.now.vector.images self.now.vector.past) }
    {
        for instance in &self.live {
            if self.code_number(instance, place).is_some() {
                return Some(*instance);
            }
        }
        None
    }

    /// Copies 15 bytes of a part of an instance, as the loader leaves it.
    fn copy_loaded(&self, instance: &Instance, number: u64, at: u64, into: &mut [u8; 15])
        requires { at + 15 ≤ length (loaded_part self.now.vector.images instance.now number) }
        ensures { into.new ≡ slice_range (loaded_part self.now.vector.images instance.now number) at (at + 15) }
    {
        self.modules.copy_bytes(instance, number, at, into);
    }

    /// Copies the 15 bytes from an address on, if the part holds all of them.
    fn copy_part(
        &self,
        image: &Image,
        instance: &Instance,
        number: u64,
        place: u64,
        into: &mut [u8; 15],
    ) -> bool
        requires there { image_at self.now.vector.images instance.now.image ≡ Some image.now }
        ensures { result ≡ true → Copies self.now.vector.images image.now instance.now number place into.new }
    {
        let Some(part) = image.part(number) else {
            return false;
        };
        let Some(at) = behind_part(part.address, self.bias(instance), place) else {
            return false;
        };
        let size = self.part_size(instance, number);
        if size < WINDOW || at > size - WINDOW {
            return false;
        }
        self.copy_loaded(instance, number, at, into);
        true
    }

    /// Copies the next 15 bytes of code, if one part holds all of them.
    pub(crate) fn copy_code(&self, place: u64, into: &mut [u8; 15]) -> bool
        ensures { result ≡ true → into.new ≡ fetch_of (range_accesses plain_operations) (memory_of self.now) place }
    {
        if place > u64::MAX - WINDOW {
            return false;
        }
        let Some(instance) = self.code_at(place) else {
            return false;
        };
        let Some(image) = self.image_of(&instance) else {
            return false;
        };
        let Some(number) = self.first_code(image, &instance, place) else {
            return false;
        };
        self.copy_part(image, &instance, number, place, into)
    }
}
