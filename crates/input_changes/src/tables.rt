//! Tables of entries of one size, somewhere in a file.

ghost use Rattle.std.specs.Prelude.{◌≡◌, ◌≤◌};
ghost use Rattle.input_changes.specs.Differing.{differing};

use crate::fields::Field;
use crate::numbers::other_number;
use job_changes::Generator;

/// The fields of a symbol, in an object and in an image.
pub(crate) const SYMBOL: [Field; 6] = [
    Field(0, 4),
    Field(4, 1),
    Field(5, 1),
    Field(6, 2),
    Field(8, 8),
    Field(16, 8),
];

/// The fields of a relocation: its place, type, symbol and addend.
pub(crate) const RELOCATION: [Field; 4] = [PLACE, Field(8, 4), Field(12, 4), Field(16, 8)];

pub(crate) const PLACE: Field = Field(0, 8);

/// The size of a symbol, and of a relocation.
pub(crate) const ENTRY_SIZE: u64 = 24;

/// A table: where it begins, how many entries it has, and how many bytes each.
#[derive(Clone, Copy)]
pub(crate) struct Table {
    pub(crate) at: u64,
    pub(crate) count: u64,
    pub(crate) size: u64,
}

/// The header of the file, as a table of one entry.
pub(crate) fn header() -> Table {
    Table {
        at: 0,
        count: 1,
        size: 64,
    }
}

impl Table {
    /// Where an entry begins.
    pub(crate) fn place(self, number: u64) -> u64 {
        self.at.saturating_add(number.saturating_mul(self.size))
    }

    /// A field of an entry.
    pub(crate) fn field(self, number: u64, field: Field) -> Field
        ensures { result.1 ≡ field.1 }
    {
        field.behind(self.place(number))
    }

    /// What an entry has in a field.
    pub(crate) fn value(self, bytes: &[u8], number: u64, field: Field) -> u64 {
        self.field(number, field).value(bytes)
    }

    /// An entry by chance, if there is one.
    pub(crate) fn any(self, generator: &mut Generator) -> Option<u64> {
        if self.count == 0 {
            return None;
        }
        Some(generator.below(self.count))
    }

    /// The first entry that has this number in a field, from one on that is found by chance.
    pub(crate) fn any_with(
        self,
        generator: &mut Generator,
        bytes: &[u8],
        field: Field,
        wanted: u64,
    ) -> Option<u64> {
        let first = self.any(generator)?;
        for step in 0..self.count.min(256) {
            let number = first.wrapping_add(step).checked_rem(self.count)?;
            if self.value(bytes, number, field) == wanted {
                return Some(number);
            }
        }
        None
    }

    /// Gives one of these fields of an entry another number.
    #[tactic(auto, using(crate::proofs::Differing::differing_self))]
    pub(crate) fn change_field(
        self,
        generator: &mut Generator,
        bytes: &mut [u8],
        fields: &[Field],
    ) -> Option<()>
        ensures { differing bytes.old bytes.new ≤ 8 }
    {
        let number = self.any(generator)?;
        let field = generator.pick(fields)?;
        let neighbour = self.any(generator)?;
        let old = self.value(bytes, number, field);
        let new = other_number(generator, old, self.value(bytes, neighbour, field));
        self.field(number, field).set(bytes, new);
        Some(())
    }

    /// Gives one of these fields of an entry another number, or once in `times` times moves the whole.
    pub(crate) fn change(
        self,
        generator: &mut Generator,
        bytes: &mut [u8],
        fields: &[Field],
        times: u64,
    ) -> Option<()>
        ensures { differing bytes.old bytes.new ≤ 128 }
    {
        if generator.is_one_in(times) {
            return self.move_entry(generator, bytes);
        }
        self.change_field(generator, bytes, fields)
    }

    /// Gives an entry the bytes of another one, and that one its bytes, or not.
    #[tactic(auto, using(crate::proofs::Differing::differing_self, crate::proofs::Differing::differing_across))]
    pub(crate) fn move_entry(self, generator: &mut Generator, bytes: &mut [u8]) -> Option<()>
        ensures { differing bytes.old bytes.new ≤ 128 }
    {
        let one = self.any(generator)?;
        let other = self.any(generator)?;
        let is_exchanged = generator.is_one_in(2);
        for at in 0..self.size.min(64) {
            let byte = Field(at, 1);
            let first = self.value(bytes, one, byte);
            let second = self.value(bytes, other, byte);
            self.field(one, byte).set(bytes, second);
            if is_exchanged {
                self.field(other, byte).set(bytes, first);
            }
        }
        Some(())
    }
}
