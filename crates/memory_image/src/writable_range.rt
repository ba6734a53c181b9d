//! Bytes that programs read and write.

ghost use Rattle.std.specs.Prelude.{◌≡◌, ◌<◌, ◌-◌, IsTrue, slice_get, slice_set};
ghost use Rattle.guest_operands.specs.Ranges.{grants, holds};

use guest_operands::Access;
use job_meaning::Byte;
use marked_bytes::MarkedBytes;
use std::marker::Model;

/// Bytes that programs read and write, from an address on.
#[derive(Drop)]
pub struct WritableRange {
    pub start: u64,
    pub bytes: MarkedBytes,
}

impl Model for WritableRange {
    ghost use Rattle.std.specs.Prelude.{true, false};
    ghost use Rattle.guest_operands.specs.Ranges.{Range};
    ghost use Rattle.job_meaning.specs.declared.values.Byte.{Byte};

    ghost Value = { Range Byte };

    ghost view = { λ range. record {
      start = range.start;
      bytes = range.bytes;
      readable = true;
      writable = true;
      runnable = false;
    } };
}

impl WritableRange {
    /// Whether `place` is in the range, and `access` is allowed.
    pub fn grants(&self, access: Access, place: u64) -> bool
        ensures { result ≡ grants access self.now place }
    {
        let is_allowed = match access {
            Access::Read | Access::Write => true,
            Access::Run => false,
        };
        is_allowed && self.start <= place && place - self.start < self.bytes.len()
    }

    /// The byte at `place`, which is not before the range; `None` after its end.
    pub fn byte(&self, place: u64) -> Option<Byte>
        ensures { result ≡ slice_get self.now.bytes (place - self.now.start) }
    {
        self.bytes.byte(place.saturating_sub(self.start))
    }

    /// Writes the byte at `place`, which is in the range.
    pub fn set_byte(&mut self, place: u64, byte: Byte)
        requires { IsTrue (holds self.old place) }
        ensures { self.new ≡ record self.old { bytes = slice_set self.old.bytes (place - self.old.start) byte } }
    {
        self.bytes.set_byte(place - self.start, byte);
    }
}
