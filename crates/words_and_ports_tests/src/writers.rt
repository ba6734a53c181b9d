//! A sink over a writer that is interrupted, stops, or cannot flush.
use ports::{HostSink, PutFault, Sink};
use std::io;
use std::io::{Error, ErrorKind, Write};

/// A writer that is interrupted before each write, takes two bytes at a time, and stops after some. What it has taken
/// gets through only if it can be flushed.
#[derive(Drop)]
struct SlowWriter {
    room: usize,
    at_end: Option<ErrorKind>,
    at_flush: Option<ErrorKind>,
    was_interrupted: bool,
}

impl Write for SlowWriter {
    fn write(&mut self, buf: &[u8]) -> io::Result<usize> {
        self.was_interrupted = !self.was_interrupted;
        if self.was_interrupted {
            return Err(Error::from(ErrorKind::Interrupted));
        }
        let count = buf.len().min(2).min(self.room);
        self.room -= count;
        match self.at_end {
            Some(kind) if count == 0 => Err(Error::from(kind)),
            _ => Ok(count),
        }
    }

    fn flush(&mut self) -> io::Result<()> {
        match self.at_flush {
            Some(kind) => Err(Error::from(kind)),
            None => Ok(()),
        }
    }
}

#[test]
fn a_host_sink_writes_all_or_fails(rt: HostRuntime) {
    let full = Some(ErrorKind::StorageFull);
    let no_memory = Some(ErrorKind::OutOfMemory);
    for (room, at_end, at_flush, answer, counts) in [
        (7, None, None, Ok(()), (0, 0)),
        (6, None, None, Err(PutFault::Failed), (1, 0)),
        (3, full, None, Err(PutFault::Failed), (1, 0)),
        (5, no_memory, None, Err(PutFault::OutOfMemory), (0, 1)),
        (7, None, full, Err(PutFault::Failed), (1, 0)),
        (7, None, no_memory, Err(PutFault::OutOfMemory), (0, 1)),
    ] {
        let mut sink = HostSink::new(SlowWriter {
            room,
            at_end,
            at_flush,
            was_interrupted: false,
        });
        assert!(rt; sink.put(b"") == Ok(()));
        assert!(rt; sink.put(b"a piece") == answer, "at room {room}");
        assert!(rt; (sink.faults(), sink.shortages()) == counts);
    }
}
