//! Files of images made from a linker's drafts, and written again.

ghost use Rattle.std.specs.Prelude.{◌≡◌, ◌≤◌, length};
ghost use Rattle.image_writer.specs.Contents.{contents_of};
ghost use Rattle.image_writer.specs.Frames.{AreInside};
ghost use Rattle.image_writer.specs.Linkable.{IsLinkable};

use crate::images::{SURPLUS, WRITTEN};
use crate::reading::bytes_of;
use image_file::{
    FileKind, ImageRelocation, ImageSymbol, LoaderKind, PartClass, SymbolBinding, SymbolType,
    TlsPart, Visibility, read,
};
use image_writer::laws::linkable_drafts_have_frames;
use image_writer::{Draft, Frame, NamedSymbol, PartPlace, frame_of, holds_tls, into_file, write};
use std::alloc::{AllocError, Global};
use std::process::Abort;
use std::test::Fail;

/// A GLOBAL symbol.
fn symbol(kind: SymbolType, is_defined: bool, value: u64, size: u64) -> ImageSymbol
    ensures { result ≡ record {
      binding = SymbolBinding.Global;
      kind = kind;
      visibility = Visibility.Default;
      is_defined = is_defined;
      value = value;
      size = size;
    } }
{
    ImageSymbol {
        binding: SymbolBinding::Global,
        kind,
        visibility: Visibility::Default,
        is_defined,
        value,
        size,
    }
}

fn named<'a>(name: &'a [u8], symbol: ImageSymbol) -> NamedSymbol<'a>
    ensures { result ≡ record { symbol = symbol; name = name.entry } }
{
    NamedSymbol { symbol, name }
}

fn place(class: PartClass, address: u64, size: u64) -> PartPlace
    ensures { result ≡ record { class = class; address = address; size = size } }
{
    PartPlace {
        class,
        address,
        size,
    }
}

/// The file of a draft's image: what stands behind the first page of a file, in the draft's frame.
fn file_of(alloc: Global, draft: &Draft<'_>, file: &[u8]) -> Result<Vec<u8>, AllocError>
    requires linkable { IsLinkable (contents_of draft.now file.now) }
    requires inside { AreInside draft.now file.now }
    requires page { 4096 ≤ length file.now }
{
    linkable_drafts_have_frames();
    let Frame { front, back } = frame_of(alloc, draft)?;
    let mut made = front;
    made.extend_from_slice(&file[4096..])?;
    made.extend_from_slice(back.as_slice())?;
    Ok(made)
}

/// The file of the image `WRITTEN`, of a file of a page and the bytes of its parts.
fn framed_program(alloc: Global, file: &[u8]) -> Result<Vec<u8>, AllocError>
    requires { length file.now ≡ 20486 }
{
    let draft = Draft {
        kind: FileKind::Exe,
        parts: &[
            place(PartClass::Executable, 0x40_0000, 23),
            place(PartClass::ReadOnly, 0x40_1000, 20),
            place(PartClass::Writable, 0x40_2000, 4),
            place(PartClass::Writable, 0x40_3000, 24),
            place(PartClass::Executable, 0x40_4000, 6),
        ],
        got: Some(3),
        tls: Some(TlsPart {
            address: 0x40_1000,
            initial: 20,
            size: 20,
            alignment: 8,
        }),
        symbols: &[
            named(b"f", symbol(SymbolType::Func, true, 0x40_0000, 23)),
            named(b"x", symbol(SymbolType::Tls, true, 8, 4)),
            named(b"n", symbol(SymbolType::Object, true, 0x40_2000, 4)),
            named(b"__tls_get_addr", symbol(SymbolType::NoType, false, 0, 0)),
        ],
        relocations: &[ImageRelocation {
            place: 0x40_3010,
            kind: LoaderKind::JumpSlot,
            symbol: 4,
            addend: 0,
        }],
        is_flagged: false,
    };
    file_of(alloc, &draft, file)
}

/// The file of a module that uses static TLS, of a file of a page and the bytes of its parts.
fn framed_surplus(alloc: Global, file: &[u8]) -> Result<Vec<u8>, AllocError>
    requires { length file.now ≡ 12296 }
{
    let draft = Draft {
        kind: FileKind::Module,
        parts: &[
            place(PartClass::Executable, 0, 8),
            place(PartClass::ReadOnly, 0x1000, 4),
            place(PartClass::Writable, 0x2000, 8),
        ],
        got: Some(2),
        tls: Some(TlsPart {
            address: 0x1000,
            initial: 4,
            size: 8,
            alignment: 4,
        }),
        symbols: &[
            named(b"f", symbol(SymbolType::Func, true, 0, 8)),
            named(b"v", symbol(SymbolType::Tls, true, 0, 4)),
        ],
        relocations: &[ImageRelocation {
            place: 0x2000,
            kind: LoaderKind::ThreadOffset,
            symbol: 0,
            addend: 0,
        }],
        is_flagged: true,
    };
    file_of(alloc, &draft, file)
}

/// The bytes of an image's parts without its tables, after a page of zeros.
fn parts_of(alloc: Global, image: &[u8], end: usize) -> Result<Vec<u8>, Fail> {
    let parts = image.get(4096..end).ok_or("the parts")?;
    let mut file = vec![in alloc; 0u8; 4096]?;
    file.extend_from_slice(parts)?;
    Ok(file)
}

/// The same file with the byte at `at` set to 1.
fn with_one(file: Vec<u8>, at: usize) -> Result<Vec<u8>, Fail> {
    let mut file = file;
    *file.get_mut(at).ok_or("the byte")? = 1;
    Ok(file)
}

/// The files that the writer makes of an image: appended to nothing, and made from the image itself.
#[derive(Drop)]
struct Files {
    appended: Vec<u8>,
    made: Vec<u8>,
}

/// Reads an image, and writes it again.
fn files_of(alloc: Global, file: &[u8]) -> Result<Files, Fail> {
    let image = read(alloc, file)?;
    if !holds_tls(&image) {
        return Err("the TLS segment begins in the file")?;
    }
    let mut appended = Vec::new(alloc);
    write(alloc, &image, &mut appended)?;
    let made = into_file(alloc, image)?;
    Ok(Files { appended, made })
}

/// Checks that a file is read as an image whose files are these bytes.
fn is_written_as(rt: &(impl Abort + AllocGlobal), file: &[u8], want: &[u8]) -> Result<(), Fail> {
    let files = files_of(rt.alloc(), file)?;
    assert_eq!(rt; files.appended.as_slice(), want);
    assert_eq!(rt; files.made.as_slice(), want);
    Ok(())
}

#[test]
fn makes_the_program_of_its_draft(rt: HostRuntime) -> Result<(), Fail> {
    let want = bytes_of(rt.alloc(), WRITTEN)?;
    let file = parts_of(rt.alloc(), want.as_slice(), 20_486)?;
    assert_eq!(rt; file.len(), 20_486);
    let framed = framed_program(rt.alloc(), file.as_slice())?;
    assert_eq!(rt; framed.as_slice(), want.as_slice());
    is_written_as(&rt, framed.as_slice(), want.as_slice())
}

#[test]
fn makes_the_module_of_its_draft(rt: HostRuntime) -> Result<(), Fail> {
    let want = bytes_of(rt.alloc(), SURPLUS)?;
    let file = parts_of(rt.alloc(), want.as_slice(), 12_296)?;
    assert_eq!(rt; file.len(), 12_296);
    let framed = framed_surplus(rt.alloc(), file.as_slice())?;
    assert_eq!(rt; framed.as_slice(), want.as_slice());
    is_written_as(&rt, framed.as_slice(), want.as_slice())
}

/// The first part has 23 bytes: the byte at 4,096 + 23 belongs to no part.
#[test]
fn puts_zeros_between_parts(rt: HostRuntime) -> Result<(), Fail> {
    let want = bytes_of(rt.alloc(), WRITTEN)?;
    let file = parts_of(rt.alloc(), want.as_slice(), 20_486)?;
    let file = with_one(file, 4_119)?;
    assert_eq!(rt; file.len(), 20_486);
    let framed = framed_program(rt.alloc(), file.as_slice())?;
    assert_eq!(rt; framed.get(4_119), Some(&1));
    is_written_as(&rt, framed.as_slice(), want.as_slice())
}
