//! The lines of an image's text, one at a time.

ghost use Rattle.std.specs.Prelude.{◌≡◌, ◌++◌, [], OnOk, codes, if◌then◌else◌};
ghost use Rattle.image_text.specs.Words.{class_word, kind_word};
ghost use Rattle.image_text.specs.Shown.{part_line, tls_line, relro_line, symbol_line, relocation_line};
ghost use Rattle.image_file.specs.Spelled.{lent_part};

use image_file::{FileKind, ImagePart, ImageRelocation, ImageSymbol, PartClass, TlsPart};
use std::alloc::AllocError;

/// The word for the kind of an image.
fn kind_word(kind: FileKind) -> &'static str
    ensures { result.now ≡ kind_word kind }
{
    match kind {
        FileKind::Exe => "exe",
        FileKind::Pie => "pie",
        FileKind::Module => "module",
    }
}

/// The word for what may be done with a part.
fn class_word(class: PartClass) -> &'static str
    ensures { result.now ≡ class_word class }
{
    match class {
        PartClass::Executable => "x",
        PartClass::ReadOnly => "r",
        PartClass::Writable => "rw",
    }
}

/// The word before the name of a symbol.
fn import_word(is_defined: bool) -> &'static str
    ensures { result.now ≡ (if is_defined then [] else codes "import ") }
{
    if is_defined { "" } else { "import " }
}

/// Appends the line with the kind of the image.
pub fn push_kind(text: &mut Vec<u8>, kind: FileKind) -> Result<(), AllocError>
    ensures { OnOk result (text.new.items ≡ text.old.items ++ (codes "kind " ++ kind_word kind ++ codes "\n")) }
{
    let word = kind_word(kind);
    let line = format!(in *text.allocator(); "kind {word}\n")?;
    text.extend_from_slice(line.as_bytes())
}

/// Appends the line of a part.
#[tactic(auto, unfolding(crate::specs::Shown::part_line))]
pub fn push_part(text: &mut Vec<u8>, part: ImagePart) -> Result<(), AllocError>
    ensures { OnOk result (text.new.items ≡ text.old.items ++ part_line (lent_part part.entry)) }
{
    let class = class_word(part.class);
    let address = part.address;
    let size = part.bytes.len();
    let line = format!(in *text.allocator(); "part {class} {address:016x} {size}\n")?;
    text.extend_from_slice(line.as_bytes())
}

/// Appends the line of the TLS segment.
#[tactic(auto, unfolding(crate::specs::Shown::tls_line))]
pub fn push_tls(text: &mut Vec<u8>, tls: TlsPart) -> Result<(), AllocError>
    ensures { OnOk result (text.new.items ≡ text.old.items ++ tls_line tls) }
{
    let address = tls.address;
    let initial = tls.initial;
    let size = tls.size;
    let alignment = tls.alignment;
    let line = format!(in *text.allocator(); "tls {address:016x} {initial} {size} {alignment}\n")?;
    text.extend_from_slice(line.as_bytes())
}

/// Appends the line of the part that only the loader writes.
#[tactic(auto, unfolding(crate::specs::Shown::relro_line))]
pub fn push_relro(text: &mut Vec<u8>, part: ImagePart) -> Result<(), AllocError>
    ensures { OnOk result (text.new.items ≡ text.old.items ++ relro_line (lent_part part.entry)) }
{
    let address = part.address;
    let size = part.bytes.len();
    let line = format!(in *text.allocator(); "relro {address:016x} {size}\n")?;
    text.extend_from_slice(line.as_bytes())
}

/// Appends the line of a symbol. Its name need not be text.
#[tactic(auto, unfolding(crate::specs::Shown::symbol_line))]
pub fn push_symbol(text: &mut Vec<u8>, symbol: ImageSymbol, name: &[u8]) -> Result<(), AllocError>
    ensures { OnOk result (text.new.items ≡ text.old.items ++ symbol_line (symbol, name.now)) }
{
    let value = symbol.value;
    let number = symbol.kind.number();
    let import = import_word(symbol.is_defined);
    let front = format!(in *text.allocator(); "symbol {value:016x} {number} {import}")?;
    text.extend_from_slice(front.as_bytes())?;
    text.extend_from_slice(name)?;
    text.extend_from_slice(b"\n")
}

/// Appends the line of a relocation.
#[tactic(auto, unfolding(crate::specs::Shown::relocation_line))]
pub fn push_relocation(text: &mut Vec<u8>, relocation: ImageRelocation) -> Result<(), AllocError>
    ensures { OnOk result (text.new.items ≡ text.old.items ++ relocation_line relocation) }
{
    let place = relocation.place;
    let number = relocation.kind.number();
    let symbol = relocation.symbol;
    let addend = relocation.addend;
    let line = format!(in *text.allocator(); "reloc {place:016x} {number} {symbol} {addend}\n")?;
    text.extend_from_slice(line.as_bytes())
}

/// Appends the line of static TLS, if the flag is set.
pub fn push_flag(text: &mut Vec<u8>, is_flagged: bool) -> Result<(), AllocError>
    ensures { OnOk result
        (text.new.items ≡ text.old.items ++ (if is_flagged then codes "static-tls\n" else [])) }
{
    if is_flagged {
        text.extend_from_slice(b"static-tls\n")?;
    }
    Ok(())
}
