//! Files that are made piece by piece.
ghost use Rattle.std.specs.Prelude.{◌≡◌, [], ◌≤◌, length, take, replicate, slice_range, IfOk};
ghost use Rattle.file_bytes.specs.Pieces.{PiecesView, joined, whole};

use std::alloc::{AllocError, Global};

/// The bytes of a file. Its first and its last are there; the pieces between are made when they are asked for, so
/// that they need not be in memory all at once.
pub trait Pieces {
    ghost view: { Self → PiecesView };

    /// The bytes before the pieces.
    fn front(&self) -> &[u8]
        ensures { result.now ≡ (view self.now).front };

    /// The bytes after the pieces.
    fn back(&self) -> &[u8]
        ensures { result.now ≡ (view self.now).back };

    /// How many pieces lie between them.
    fn count(&self) -> usize
        ensures { result ≡ length (view self.now).pieces };

    /// How many bytes the pieces before this one have together.
    fn start(&self, number: usize) -> usize
        requires { number ≤ length (view self.now).pieces }
        ensures { result ≡ length (joined (take number (view self.now).pieces)) };

    /// Makes the pieces from number `from` on and before `to` in `into`, whose bytes are zero.
    fn make(&self, from: usize, to: usize, into: &mut [u8])
        requires order { (from ≤ to) × (to ≤ length (view self.now).pieces) }
        requires zero { into.old ≡ replicate (length (joined (slice_range (view self.now).pieces from to))) 0 }
        ensures { into.new ≡ joined (slice_range (view self.now).pieces from to) };
}

/// Bytes that are there, as a file without pieces.
#[derive(Clone, Copy)]
pub struct Whole<'b> {
    pub bytes: &'b [u8],
}

impl<'b> Pieces for Whole<'b> {
    ghost view = { λ a. record { front = a.bytes.now; pieces = []; back = [] } };

    fn front(&self) -> &[u8] {
        self.bytes
    }

    fn back(&self) -> &[u8] {
        &self.bytes[..0]
    }

    fn count(&self) -> usize {
        0
    }

    fn start(&self, _number: usize) -> usize {
        0
    }

    fn make(&self, _from: usize, _to: usize, _into: &mut [u8]) {}
}

/// The whole file, in one buffer.
pub fn join<P: Pieces>(alloc: Global, pieces: &P) -> Result<Vec<u8>, AllocError>
    ensures { IfOk result (λ file. file.items ≡ whole (P.view pieces.now)) }
{
    let front = pieces.front();
    let count = pieces.count();
    let Some(end) = front.len().checked_add(pieces.start(count)) else {
        return Err(AllocError);
    };
    let mut file = Vec::from_slice(alloc, front)?;
    file.resize(end, 0)?;
    pieces.make(0, count, &mut file[front.len()..]);
    file.extend_from_slice(pieces.back())?;
    Ok(file)
}
