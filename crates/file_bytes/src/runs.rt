//! The pieces of a file, in runs that one buffer can hold.
ghost use Rattle.std.specs.Prelude.{◌≡◌, ◌+◌, ◌<◌, ◌≤◌, length, take, slice_range, OnOk, OnErr, IfOk};
ghost use Rattle.std.specs.Io.KnownBytes.{Appends};
ghost use Rattle.file_bytes.specs.Pieces.{joined, whole, EachFits};
ghost use Rattle.file_bytes.specs.Streams.{AppendsFront};

use crate::{Pieces, write_all};
use std::alloc::{AllocError, Global};
use std::io;
use std::io::Write;

/// How many bytes a run may have, unless a single piece has more: so small pieces share a write, several threads find
/// work in a run, and memory for large files stays small.
const ROUND: usize = 1 << 21;

/// A buffer that holds any piece, or all of them if they are few.
pub fn room_for<P: Pieces>(alloc: Global, pieces: &P) -> Result<Vec<u8>, AllocError>
    ensures { IfOk result (λ buffer. EachFits (length buffer.items) (P.view pieces.now).pieces) }
{
    let all = pieces.start(pieces.count());
    vec![in alloc; 0; largest(pieces).max(ROUND).min(all)]
}

/// How many bytes the largest piece has.
fn largest<P: Pieces>(pieces: &P) -> usize
    ensures { EachFits result (P.view pieces.now).pieces }
{
    let (mut most, mut start) = (0, 0);
    for number in 0..pieces.count() {
        most = most.max(size(pieces, number, start, number + 1));
        start = pieces.start(number + 1);
    }
    most
}

/// How many bytes the pieces from number `from` on and before `to` have together. Those before them have `start`.
fn size<P: Pieces>(pieces: &P, from: usize, start: usize, to: usize) -> usize
    requires order { (from ≤ to) × (to ≤ length (P.view pieces.now).pieces) }
    requires start { start ≡ length (joined (take from (P.view pieces.now).pieces)) }
    ensures { result ≡ length (joined (slice_range (P.view pieces.now).pieces from to)) }
{
    pieces.start(to) - start
}

/// Where the run from number `from` on ends: behind one piece, and each next one as long as they fit in `room`.
fn end_of_run<P: Pieces>(pieces: &P, from: usize, room: usize) -> usize
    requires begins { from < length (P.view pieces.now).pieces }
    requires room { EachFits room (P.view pieces.now).pieces }
    ensures order { (from < result) × (result ≤ length (P.view pieces.now).pieces) }
    ensures fits { length (joined (slice_range (P.view pieces.now).pieces from result)) ≤ room }
{
    let (count, start) = (pieces.count(), pieces.start(from));
    let mut to = from + 1;
    while to < count && size(pieces, from, start, to + 1) <= room {
        to += 1;
    }
    to
}

/// Makes a run in the buffer, and writes it.
fn write_run<W: Write, P: Pieces>(
    to: &mut W,
    pieces: &P,
    from: usize,
    end: usize,
    buffer: &mut [u8],
) -> io::Result<()>
    requires order { (from ≤ end) × (end ≤ length (P.view pieces.now).pieces) }
    requires room { length (joined (slice_range (P.view pieces.now).pieces from end)) ≤ length buffer.old }
    ensures size { length buffer.new ≡ length buffer.old }
    ensures ok { OnOk result (Appends (W.contents to.old) (W.contents to.new)
        (joined (slice_range (P.view pieces.now).pieces from end))) }
    ensures err { OnErr result (AppendsFront (W.contents to.old) (W.contents to.new)
        (joined (slice_range (P.view pieces.now).pieces from end))) }
{
    let size = size(pieces, from, pieces.start(from), end);
    let run = &mut buffer[..size];
    run.fill(0);
    pieces.make(from, end, run);
    write_all(to, run)
}

/// Writes the pieces, run by run.
fn write_runs<W: Write, P: Pieces>(to: &mut W, pieces: &P, buffer: &mut [u8]) -> io::Result<()>
    requires { EachFits (length buffer.old) (P.view pieces.now).pieces }
    ensures ok { OnOk result (Appends (W.contents to.old) (W.contents to.new)
        (joined (P.view pieces.now).pieces)) }
    ensures err { OnErr result (AppendsFront (W.contents to.old) (W.contents to.new)
        (joined (P.view pieces.now).pieces)) }
{
    let mut from = 0;
    while from < pieces.count() {
        let end = end_of_run(pieces, from, buffer.len());
        write_run(to, pieces, from, end, buffer)?;
        from = end;
    }
    Ok(())
}

/// Writes the whole file, with its pieces made in the buffer.
pub fn write_pieces<W: Write, P: Pieces>(
    to: &mut W,
    pieces: &P,
    buffer: &mut [u8],
) -> io::Result<()>
    requires { EachFits (length buffer.old) (P.view pieces.now).pieces }
    ensures ok { OnOk result (Appends (W.contents to.old) (W.contents to.new) (whole (P.view pieces.now))) }
    ensures err { OnErr result (AppendsFront (W.contents to.old) (W.contents to.new) (whole (P.view pieces.now))) }
{
    write_all(to, pieces.front())?;
    write_runs(to, pieces, buffer)?;
    write_all(to, pieces.back())
}
