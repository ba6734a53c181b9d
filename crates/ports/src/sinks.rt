//! One stream of bytes, to its end.
ghost use Rattle.ports.specs.Sinks.{SinkView, Puts};

use crate::PutFault;

/// Where a command's output goes, in pieces.
pub trait Sink {
    // What the sink shows: its counts always; its bytes and the number of its pieces, refused ones too, if it shows
    // them. No sink has to show its pieces. Code over any sink is proved for one that does, so its clauses can say in
    // how many pieces it puts its output.
    ghost view: { Self → SinkView };

    /// Appends the whole piece. On a refusal, a prefix of it may have been appended. The count of faults rises if the
    /// result is `Failed`, and that of shortages if it is `OutOfMemory`.
    fn put(&mut self, piece: &[u8]) -> Result<(), PutFault>
        ensures { Puts piece.now (view self.old) (view self.new) result };
}
