//! Searches in the program headers: how many LOADs lead, which are writable, whether there is a GNU_RELRO.

ghost use Rattle.std.specs.Prelude.{◌≡◌, ◌≤◌, ◌<◌, ◌+◌};
ghost use Rattle.image_faults.specs.Counts.{how_many};
ghost use Rattle.image_faults.specs.Parts.{loads as loads_of, is_writable, has_relro as has_relro_of};
ghost use Rattle.image_faults.specs.Parts.{behind_last_writable as behind_last_writable_of};

use crate::headers::Headers;
use elf_records::program_header::{PF_R, PF_W, PT_GNU_RELRO, PT_LOAD};

/// The flags of a part that may be written.
pub const READ_WRITE: u32 = PF_R + PF_W;

/// How many LOADs there are: the leading headers of that type.
pub fn load_count(headers: &Headers) -> u64
    ensures count { result ≡ loads_of headers.now.bytes.now }
    ensures few { result ≤ headers.now.count }
{
    for number in 0..headers.count {
        if headers.segment(number).kind != PT_LOAD {
            return number;
        }
    }
    headers.count
}

/// How many of the first `end` headers are those of a writable part. There are at most ten headers.
pub fn written_below(headers: &Headers, end: u64) -> u64
    requires { end ≤ headers.now.count }
    ensures { result ≡ how_many (is_writable headers.now.bytes.now) end }
{
    let mut count = 0u64;
    for number in 0..end {
        if headers.segment(number).flags == READ_WRITE {
            count += 1;
        }
    }
    count
}

/// The number after that of the last writable LOAD, or 0.
pub fn behind_last_writable(headers: &Headers, loads: u64) -> u64
    requires loads { loads ≡ loads_of headers.now.bytes.now }
    requires few { loads ≤ headers.now.count }
    ensures behind { result ≡ behind_last_writable_of headers.now.bytes.now }
    ensures few { result ≤ loads }
{
    let mut behind = 0;
    for number in 0..loads {
        if headers.segment(number).flags == READ_WRITE {
            behind = number + 1;
        }
    }
    behind
}

/// Whether one of the headers is GNU_RELRO.
pub fn has_relro(headers: &Headers) -> bool
    ensures { result ≡ has_relro_of headers.now.bytes.now }
{
    let mut behind = 0;
    for number in 0..headers.count {
        if headers.segment(number).kind == PT_GNU_RELRO {
            behind = number + 1;
        }
    }
    0 < behind
}
