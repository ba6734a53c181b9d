//! Names as a terminal may show them.
ghost use Rattle.std.specs.Prelude.{◌≡◌, ◌++◌, OnOk, take};
ghost use Rattle.std.specs.List.{flat_map};
ghost use Rattle.terminal_notes.specs.Printable.{shown_byte, dots, printable};

use std::alloc::AllocError;

/// How many bytes of a name are shown.
const LIMIT: usize = 80;

fn append_byte(into: &mut Vec<u8>, byte: u8) -> Result<(), AllocError>
    ensures { OnOk result (into.new.items ≡ into.old.items ++ shown_byte byte) }
{
    if 0x20 <= byte && byte <= 0x7e {
        into.extend_from_slice(&[byte])
    } else {
        into.extend_from_slice(b"\\x")?;
        let digits = hex::encode(*into.allocator(), &[byte])?;
        into.extend_from_slice(digits.as_bytes())
    }
}

fn append_bytes(into: &mut Vec<u8>, bytes: &[u8]) -> Result<(), AllocError>
    ensures { OnOk result (into.new.items ≡ into.old.items ++ flat_map shown_byte bytes.now) }
{
    for byte in bytes {
        append_byte(into, *byte)?;
    }
    Ok(())
}

/// The first `count` bytes, or all if there are fewer.
fn front(bytes: &[u8], count: usize) -> &[u8]
    ensures { result.now ≡ take count bytes.now }
{
    if count < bytes.len() {
        &bytes[..count]
    } else {
        bytes
    }
}

fn append_dots(into: &mut Vec<u8>, name: &[u8]) -> Result<(), AllocError>
    ensures { OnOk result (into.new.items ≡ into.old.items ++ dots name.now) }
{
    if LIMIT < name.len() {
        into.extend_from_slice(b"..")
    } else {
        Ok(())
    }
}

/// Appends the first 80 bytes of a name, those outside 0x20 to 0x7e in hexadecimal, and two dots if there are more.
#[tactic(auto, unfolding(crate::specs::Printable::printable))]
pub fn append_printable(into: &mut Vec<u8>, name: &[u8]) -> Result<(), AllocError>
    ensures { OnOk result (into.new.items ≡ into.old.items ++ printable name.now) }
{
    append_bytes(into, front(name, LIMIT))?;
    append_dots(into, name)
}
