//! Whole streams, by single reads and writes.
ghost use Rattle.std.specs.Prelude.{◌≡◌, [], ◌+◌, ◌++◌, ◌≤◌, length, take, ℕ, List, OnOk, OnErr, IsOk, IfOk, IfErr, IfSome};
ghost use Rattle.std.specs.Io.{ReadsAtMost, WritesAtMost};
ghost use Rattle.std.specs.IoError.{error_kind};
ghost use Rattle.std.specs.Io.KnownBytes.{ReadConsumes, WriteAppends, Appends, Consumes};
ghost use Rattle.file_bytes.specs.Streams.{AppendsFront};

use std::io;
use std::io::{ErrorKind, Read, Write};

/// How often in a row a call is tried again after a signal interrupted it.
const RETRIES: u32 = 1000;

/// How many bytes are read at a time.
const CHUNK: usize = 4096;

/// One read. It is tried again if a signal interrupts it, which is before it has moved a byte.
fn read_some<R: Read>(from: &mut R, buffer: &mut [u8]) -> io::Result<usize>
    ensures bound { ReadsAtMost result buffer.new }
    ensures bytes { ReadConsumes (R.remaining from.old) (R.remaining from.new) result buffer.new }
{
    for _ in 0..RETRIES {
        match from.read(buffer) {
            Ok(count) => return Ok(count),
            Err(error) if error.kind() == ErrorKind::Interrupted => {}
            Err(error) => return Err(error),
        }
    }
    from.read(buffer)
}

/// One write. It is tried again if a signal interrupts it, which is before it has moved a byte.
fn write_some<W: Write>(to: &mut W, bytes: &[u8]) -> io::Result<usize>
    ensures bound { WritesAtMost result bytes.now }
    ensures bytes { WriteAppends (W.contents to.old) (W.contents to.new) result bytes.now }
{
    for _ in 0..RETRIES {
        match to.write(bytes) {
            Ok(count) => return Ok(count),
            Err(error) if error.kind() == ErrorKind::Interrupted => {}
            Err(error) => return Err(error),
        }
    }
    to.write(bytes)
}

/// Appends the rest of the reader, chunk by chunk. On a refusal some of it has been appended.
fn read_rest<R: Read>(from: &mut R, into: &mut Vec<u8>, mut room: usize) -> io::Result<()>
    ensures bytes { OnOk result (IfSome (R.remaining from.old)
        (λ bytes. into.new.items ≡ into.old.items ++ bytes)) }
    ensures fits { OnOk result (length into.new.items ≤ length into.old.items + room) }
    ensures begins { take (length into.old.items) into.new.items ≡ into.old.items }
{
    let mut buffer = [0; CHUNK];
    loop {
        let count = read_some(from, &mut buffer)?;
        if count == 0 {
            return Ok(());
        }
        if count > room {
            return Err(too_large());
        }
        room -= count;
        append(into, &buffer[..count])?;
    }
}

/// The error of a reader that has more bytes than there is room for.
pub fn too_large() -> io::Error
    ensures { error_kind result ≡ ErrorKind.FileTooLarge }
{
    io::Error::new(ErrorKind::FileTooLarge, "the file is too large")
}

/// Appends the bytes. The only error is `OutOfMemory`.
fn append(into: &mut Vec<u8>, bytes: &[u8]) -> io::Result<()>
    ensures ok { OnOk result (into.new.items ≡ into.old.items ++ bytes.now) }
    ensures err { OnErr result (into.new.items ≡ into.old.items) }
    ensures cause { IfErr result (λ error. error_kind error ≡ ErrorKind.OutOfMemory) }
{
    Ok(into.extend_from_slice(bytes)?)
}

/// Reads until the buffer is full or the reader is at its end, and returns how many bytes it has read.
fn fill<R: Read>(from: &mut R, buffer: &mut [u8]) -> io::Result<usize>
    ensures bound { ReadsAtMost result buffer.new }
    ensures bytes { IfOk result (λ count.
        Consumes (R.remaining from.old) (R.remaining from.new) (take count buffer.new)) }
{
    let mut filled = 0;
    while filled < buffer.len() {
        let count = read_some(from, &mut buffer[filled..])?;
        if count == 0 {
            return Ok(filled);
        }
        filled += count;
    }
    Ok(filled)
}

/// Appends the next `expected` bytes of the reader, or its rest if that is shorter, and returns how many
/// bytes that was. They are read straight into the room made for them. On a refusal some of that room may be
/// left at the end of `into`.
fn read_front<R: Read>(from: &mut R, into: &mut Vec<u8>, expected: usize) -> io::Result<usize>
    ensures bytes { IfOk result (λ count. (front : List ℕ) × (length front ≡ count)
        × Consumes (R.remaining from.old) (R.remaining from.new) front
        × (into.new.items ≡ into.old.items ++ front)) }
    ensures bound { IfOk result (λ count. count ≤ expected) }
    ensures begins { take (length into.old.items) into.new.items ≡ into.old.items }
{
    let begin = into.len();
    // A sum that saturates is more than any vector holds, so `resize` refuses it.
    into.resize(begin.saturating_add(expected), 0)?;
    let count = fill(from, &mut into[begin..])?;
    into.truncate(begin + count);
    Ok(count)
}

/// Appends the rest of the reader: up to `expected` bytes at once, and then chunk by chunk. It fails if more than
/// `room` bytes are expected or read. On a refusal `into` may have grown.
fn read_sized<R: Read>(
    from: &mut R,
    into: &mut Vec<u8>,
    expected: usize,
    room: usize,
) -> io::Result<()>
    ensures bytes { OnOk result (IfSome (R.remaining from.old)
        (λ bytes. into.new.items ≡ into.old.items ++ bytes)) }
    ensures fits { OnOk result (length into.new.items ≤ length into.old.items + room) }
    ensures begins { take (length into.old.items) into.new.items ≡ into.old.items }
{
    if expected > room {
        return Err(too_large());
    }
    let count = read_front(from, into, expected)?;
    read_rest(from, into, room - count)
}

/// Appends the rest of the reader, which probably has `expected` bytes. It fails if a read fails, or if more than
/// `room` bytes are expected or left; then `into` is as before.
pub fn read_all<R: Read>(
    from: &mut R,
    into: &mut Vec<u8>,
    expected: usize,
    room: usize,
) -> io::Result<()>
    ensures bytes { OnOk result (IfSome (R.remaining from.old)
        (λ bytes. into.new.items ≡ into.old.items ++ bytes)) }
    ensures fits { OnOk result (length into.new.items ≤ length into.old.items + room) }
    ensures begins { take (length into.old.items) into.new.items ≡ into.old.items }
    ensures kept { OnErr result (into.new.items ≡ into.old.items) }
{
    let begin = into.len();
    let answer = read_sized(from, into, expected, room);
    if answer.is_err() {
        into.truncate(begin);
    }
    answer
}

/// Writes all the bytes, piece by piece. A writer that takes no byte has failed.
pub fn write_all<W: Write>(to: &mut W, bytes: &[u8]) -> io::Result<()>
    ensures ok { OnOk result (Appends (W.contents to.old) (W.contents to.new) bytes.now) }
    ensures err { OnErr result (AppendsFront (W.contents to.old) (W.contents to.new) bytes.now) }
    ensures empty { bytes.now ≡ [] → IsOk result }
{
    let mut written = 0;
    while written < bytes.len() {
        let count = write_some(to, &bytes[written..])?;
        if count == 0 {
            return Err(io::Error::from(ErrorKind::WriteZero));
        }
        written += count;
    }
    Ok(())
}
