//! A range of bytes with its rights.

ghost use Rattle.std.specs.Prelude.{◌≡◌, ◌<◌, ◌-◌, IsTrue, slice_get, slice_set};
ghost use Rattle.guest_operands.specs.Ranges.{grants, holds};

use guest_operands::Access;
use std::marker::Model;

/// The accesses that the bytes of a range allow.
#[derive(Clone, Copy, PartialEq, Eq, Debug)]
pub struct Rights {
    pub readable: bool,
    pub writable: bool,
    pub runnable: bool,
}

/// Bytes from an address on, with their rights.
#[derive(Drop)]
pub struct GuestRange<B> {
    start: u64,
    bytes: Vec<B>,
    rights: Rights,
}

impl<B> Model for GuestRange<B> {
    ghost use Rattle.guest_operands.specs.Ranges.{Range};

    ghost Value = { Range B };

    ghost view = { λ range. record {
      start = range.start;
      bytes = range.bytes.items;
      readable = range.rights.readable;
      writable = range.rights.writable;
      runnable = range.rights.runnable;
    } };
}

impl<B: Copy + Drop> GuestRange<B> {
    pub fn new(start: u64, bytes: Vec<B>, rights: Rights) -> Self
        ensures { result ≡ record {
          start = start;
          bytes = bytes.items;
          readable = rights.readable;
          writable = rights.writable;
          runnable = rights.runnable;
        } }
    {
        GuestRange {
            start,
            bytes,
            rights,
        }
    }

    /// Whether the byte at `place` lies in the range and allows the access.
    pub fn grants(&self, access: Access, place: u64) -> bool
        ensures { result ≡ grants access self.now place }
    {
        let is_allowed = match access {
            Access::Read => self.rights.readable,
            Access::Write => self.rights.writable,
            Access::Run => self.rights.runnable,
        };
        is_allowed && self.start <= place && place - self.start < self.bytes.len() as u64
    }

    /// The byte at `place` in the range; `None` past its end.
    pub fn byte(&self, place: u64) -> Option<B>
        ensures { result ≡ slice_get self.now.bytes (place - self.now.start) }
    {
        self.bytes
            .get((place.saturating_sub(self.start)) as usize)
            .copied()
    }

    /// Writes the byte at `place` in the range.
    pub fn set_byte(&mut self, place: u64, byte: B)
        requires { IsTrue (holds self.old place) }
        ensures { self.new ≡ record self.old { bytes = slice_set self.old.bytes (place - self.old.start) byte } }
    {
        self.bytes[(place - self.start) as usize] = byte;
    }
}
