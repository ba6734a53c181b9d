//! A sink that keeps the last line.
ghost use Rattle.std.specs.Prelude.{◌≡◌, []};
ghost use Rattle.ports.specs.Sinks.{Puts};
ghost use Rattle.terminal_notes.specs.Kept.{KeepsLast};

use ports::{PutFault, Sink};
use std::alloc::Global;
use std::marker::Model;

/// The longest piece that is kept, in bytes. The line of a refusal is shorter, unless a name is very long.
const LONGEST: usize = 4096;

/// A sink that keeps the last piece, taken or refused, if it has at most 4,096 bytes and there is memory for it. All
/// else is as in the sink within.
#[derive(Drop)]
pub struct KeptSink<K: Sink + Drop> {
    sink: K,
    last: Vec<u8>,
}

impl<K: Sink + Drop> Model for KeptSink<K> {
    ghost use Rattle.terminal_notes.specs.Kept.{KeptState};

    ghost Value = { KeptState K };

    ghost view = { λ a. record { sink = a.sink; last = a.last.items } };
}

impl<K: Sink + Drop> KeptSink<K> {
    /// Wraps a sink. No piece is kept yet.
    pub fn new(alloc: Global, sink: K) -> Self
        ensures { result ≡ record { sink = sink; last = [] } }
    {
        KeptSink {
            sink,
            last: Vec::new(alloc),
        }
    }

    /// The last piece; empty if it is not kept.
    pub fn last(&self) -> &[u8]
        ensures { result.now ≡ self.now.last }
    {
        &self.last
    }
}

/// Keeps a piece in place of the last one.
fn keep(last: &mut Vec<u8>, piece: &[u8])
    ensures { KeepsLast piece.now last.new.items }
{
    last.truncate(0);
    if piece.len() <= LONGEST && last.extend_from_slice(piece).is_err() {
        last.truncate(0);
    }
}

impl<K: Sink + Drop> Sink for KeptSink<K> {
    ghost view = { λ s. K.view s.sink };

    fn put(&mut self, piece: &[u8]) -> Result<(), PutFault>
        ensures puts { Puts piece.now (K.view self.old.sink) (K.view self.new.sink) result }

        ensures kept { KeepsLast piece.now self.new.last }
    {
        keep(&mut self.last, piece);
        self.sink.put(piece)
    }
}
