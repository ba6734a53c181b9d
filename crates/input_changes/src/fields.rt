//! Numbers in files, by their places. All of ELF's are little-endian here.

ghost use Rattle.std.specs.Prelude.{◌≡◌, ◌≤◌, slice_set};
ghost use Rattle.input_changes.specs.Differing.{differing};

/// A number of a file: where it begins, from the beginning of its entry or of the file, and how many bytes it has.
#[derive(Clone, Copy)]
pub(crate) struct Field(pub(crate) u64, pub(crate) u64);

impl Field {
    /// This field of an entry that begins so far behind.
    pub(crate) fn behind(self, place: u64) -> Field
        ensures { result.1 ≡ self.1 }
    {
        Field(self.0.saturating_add(place), self.1)
    }

    /// The number, if the file goes so far.
    pub(crate) fn get(self, bytes: &[u8]) -> Option<u64> {
        let mut value = 0u64;
        for number in 0..self.1 {
            let place = self.0.saturating_add(self.1 - 1 - number);
            let byte = bytes.get(place as usize)?;
            value = value.wrapping_mul(256).wrapping_add(u64::from(*byte));
        }
        Some(value)
    }

    /// The number, or 0.
    pub(crate) fn value(self, bytes: &[u8]) -> u64 {
        self.get(bytes).unwrap_or(0)
    }

    /// Puts another number, as much of it as the field and the file hold. A field has at most eight bytes.
    #[tactic(auto, using(crate::proofs::Differing::differing_self, crate::proofs::Differing::differing_set))]
    pub(crate) fn set(self, bytes: &mut [u8], value: u64)
        ensures width { differing bytes.old bytes.new ≤ self.1 }
        ensures few { differing bytes.old bytes.new ≤ 8 }
    {
        let mut rest = value;
        for number in 0..self.1.min(8) {
            set_byte(bytes, self.0.saturating_add(number), (rest % 256) as u8);
            rest /= 256;
        }
    }
}

/// Puts another byte, if the file goes so far.
pub(crate) fn set_byte(bytes: &mut [u8], place: u64, byte: u8)
    ensures { bytes.new ≡ slice_set bytes.old place byte }
{
    let place = place as usize;
    if place < bytes.len() {
        bytes[place] = byte;
    }
}
