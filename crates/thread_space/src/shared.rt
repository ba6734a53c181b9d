//! The bytes of the data that threads share.

ghost use Rattle.std.specs.Prelude.{◌≡◌, true};
ghost use Rattle.std.specs.List.{find};
ghost use Rattle.guest_operands.specs.declared.space.Access.TheVariants.{Read, Write};
ghost use Rattle.guest_operands.specs.Ranges.{byte_in};
ghost use Rattle.thread_space.specs.Kept.{live_in};
ghost use Rattle.thread_space.specs.Places.{data_ranges, takes};
ghost use Rattle.thread_space.specs.Writing.{WritesData};
ghost use Rattle.std.specs.Prelude.{option_and_then};
ghost use Rattle.module_data.specs.Parts.{data_start};
ghost use Rattle.thread_space.specs.Places.{behind};

use crate::space::ThreadSpace;
use loaded_modules::Instance;

impl<'m> ThreadSpace<'m> {
    /// The offset of an address from the start of an instance's data, if the address lies in the data.
    fn behind_data(&self, instance: &Instance, place: u64) -> Option<u64>
        ensures { result ≡ option_and_then (λ start. behind start place)
            (data_start self.now.vector.images instance.now) }
    {
        place.checked_sub(self.data.start(self.modules, instance)?)
    }

    /// The byte at an address in the data of an instance.
    pub(crate) fn data_byte(&self, instance: &Instance, place: u64) -> Option<u8>
        ensures read { result ≡ byte_in Read (data_ranges self.now.vector.images self.now.pieces instance.now) place }
        ensures written { result ≡ byte_in Write (data_ranges self.now.vector.images
            self.now.pieces instance.now) place }
    {
        let Some(at) = self.behind_data(instance, place) else {
            return None;
        };
        self.data.byte(instance.image, instance.number, at)
    }

    /// The live instance whose data holds an address.
    pub(crate) fn data_at(&self, place: u64) -> Option<Instance>
        ensures { result ≡ find (λ x. takes (data_ranges self.now.vector.images self.now.pieces x) place)
            (live_in self.now.vector.images self.now.vector.past) }
    {
        for instance in &self.live {
            if self.data_byte(instance, place).is_some() {
                return Some(*instance);
            }
        }
        None
    }

    /// Writes the byte at an address in the data of an instance.
    pub(crate) fn set_data_byte(&mut self, instance: &Instance, place: u64, byte: u8)
        requires { takes (data_ranges self.old.vector.images self.old.pieces instance.now) place ≡ true }
        ensures { WritesData self.old instance.now place byte self.new }
    {
        if let Some(at) = self.behind_data(instance, place) {
            self.data
                .set_byte(instance.image, instance.number, at, byte);
        }
    }
}
