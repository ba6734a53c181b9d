//! A writer of the host as a sink.
ghost use Rattle.std.specs.Prelude.{◌≡◌, [], OnOk, OnErr, IsOk};
ghost use Rattle.std.specs.Io.KnownBytes.{Appends};
ghost use Rattle.ports.specs.Sinks.{Puts};
ghost use Rattle.file_bytes.specs.Streams.{AppendsFront};

use crate::{PutFault, Sink};
use file_bytes::write_all;
use std::io::Write;
use std::marker::Model;

/// A writer, such as `io::writer(&rt)` for standard output. A caller that knows only [`Sink`] learns its counts,
/// and none of its bytes.
///
/// A put succeeds when the writer has taken and flushed the whole piece. It fails if the writer fails, takes no byte
/// of the rest, or is interrupted by a signal a thousand times in a row; then a prefix of the piece has been written.
/// A closed pipe is such a failure if the process lives on, that is, if it ignores SIGPIPE.
#[derive(Drop)]
pub struct HostSink<W: Write + Drop> {
    to: W,
    faults: u64,
    shortages: u64,
}

impl<W: Write + Drop> Model for HostSink<W> {
    ghost use Rattle.ports.specs.States.{HostSinkState};

    ghost Value = { HostSinkState };

    ghost view = { λ a. record { written = W.contents a.to; faults = a.faults; shortages = a.shortages } };
}

impl<W: Write + Drop> HostSink<W> {
    /// A sink that writes to `to`.
    pub fn new(to: W) -> Self
        ensures { result ≡ record { written = W.contents to; faults = 0; shortages = 0 } }
    {
        HostSink {
            to,
            faults: 0,
            shortages: 0,
        }
    }

    /// How often the sink has failed.
    pub fn faults(&self) -> u64
        ensures { result ≡ self.now.faults }
    {
        self.faults
    }

    /// How often the sink has run out of memory.
    pub fn shortages(&self) -> u64
        ensures { result ≡ self.now.shortages }
    {
        self.shortages
    }
}

/// Writes the whole piece and flushes it.
fn write_through<W: Write>(to: &mut W, piece: &[u8]) -> Result<(), PutFault>
    ensures ok { OnOk result (Appends (W.contents to.old) (W.contents to.new) piece.now) }
    ensures err { OnErr result (AppendsFront (W.contents to.old) (W.contents to.new) piece.now) }
    ensures empty { piece.now ≡ [] → IsOk result }
{
    if piece.is_empty() {
        return Ok(());
    }
    write_all(to, piece)?;
    to.flush()?;
    Ok(())
}

impl<W: Write + Drop> Sink for HostSink<W> {
    ghost use Rattle.ports.specs.States.{host_view};

    ghost view = { host_view };

    fn put(&mut self, piece: &[u8]) -> Result<(), PutFault>
        ensures puts { Puts piece.now (host_view self.old) (host_view self.new) result }

        ensures written { OnOk result (Appends self.old.written self.new.written piece.now) }
        ensures cut { OnErr result (AppendsFront self.old.written self.new.written piece.now) }
        ensures empty { piece.now ≡ [] → IsOk result }
    {
        match write_through(&mut self.to, piece) {
            Ok(()) => Ok(()),
            Err(PutFault::Failed) => {
                self.faults = self.faults.saturating_add(1);
                Err(PutFault::Failed)
            }
            Err(PutFault::OutOfMemory) => {
                self.shortages = self.shortages.saturating_add(1);
                Err(PutFault::OutOfMemory)
            }
        }
    }
}
