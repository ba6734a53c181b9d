//! Makes images from drafted objects, and writes the bindings of their names as text.

ghost use Rattle.std.specs.Prelude.{◌≡◌, ◌≤◌, ◌<◌, IfOk, length};
ghost use Rattle.tls_symbols.specs.Bindings.{object_at};

use elf_object::Object;
use elf_records::Rela;
use elf_records::symbol::STT_NOTYPE;
use link_faults::{Binding, LinkFault};
use object_builder::{Section, Symbol, object_of, rela};
use std::alloc::{AllocError, Global};
use std::test::Fail;
use tls_symbols::{Bindings, Exports, exports, resolve};

/// The section of each object's code. Section 1 holds its variables, section 3 the code's relocations, if there are
/// any, and then come the symbols.
const CODE: u32 = 2;

/// The kinds of symbols: st_info, st_shndx, st_other, st_value and st_size of each. `v` is a GLOBAL variable, `f` a
/// GLOBAL function, `u` a GLOBAL name that the object does not define; with a `w` before it the symbol is WEAK; `l`
/// and `k` are a LOCAL variable and function; `vi`, `vh` and `vp` are internal, hidden and protected.
const KINDS: &str = "\
v 22 1 0 0 4
f 18 2 0 0 1
u 16 0 0 0 0
wv 38 1 0 0 4
wf 34 2 0 0 1
wu 32 0 0 0 0
l 6 1 0 4 4
k 2 2 0 0 1
vi 22 1 1 0 4
vh 22 1 2 0 4
vp 22 1 3 0 4
";

/// The numbers of a kind.
fn numbers_of(kind: &str) -> Option<&'static str> {
    for row in KINDS.lines() {
        let (name, numbers) = row.split_once(' ')?;
        if name == kind {
            return Some(numbers);
        }
    }
    None
}

/// The numbers of a row; missing ones are zero.
fn row_of(numbers: &str) -> [u64; 5] {
    let mut row = [0; 5];
    for (index, word) in numbers.split(' ').enumerate() {
        if index < 5 {
            row[index] = word.parse().unwrap_or(0);
        }
    }
    row
}

/// The symbol of a word KIND:NAME.
fn symbol_of(word: &str) -> Option<Symbol<'_>> {
    let (kind, name) = word.split_once(':')?;
    let row = row_of(numbers_of(kind)?);
    let mut symbol = Symbol::global(
        name.as_bytes(),
        STT_NOTYPE,
        (row[1] % 8) as u16,
        row[3],
        row[4],
    );
    symbol.entry.info = (row[0] % 256) as u8;
    symbol.entry.other = (row[2] % 4) as u8;
    Some(symbol)
}

/// The symbols of an object's words.
fn symbols_of(alloc: Global, words: &str) -> Result<Vec<Symbol<'_>>, Fail> {
    let mut symbols = Vec::new(alloc);
    for word in words.split_whitespace() {
        if !word.contains('@') {
            symbols.push(symbol_of(word).ok_or("a symbol")?)?;
        }
    }
    Ok(symbols)
}

/// The relocations from an object's words TYPE@SYMBOL, one after another.
fn relocations_of(alloc: Global, words: &str) -> Result<Vec<Rela>, Fail> {
    let mut relocations = Vec::new(alloc);
    let mut offset = 0_u64;
    for word in words.split_whitespace() {
        if let Some((kind, symbol)) = word.split_once('@') {
            relocations.push(rela(offset, kind.parse()?, symbol.parse()?, 0))?;
            offset = offset.saturating_add(8);
        }
    }
    Ok(relocations)
}

/// The object made from these words.
fn object(alloc: Global, words: &str) -> Result<Vec<u8>, Fail> {
    let symbols = symbols_of(alloc, words)?;
    let relocations = relocations_of(alloc, words)?;
    let code = Section::code(&[0x90; 128]).with(relocations.as_slice());
    let variables = Section::variables(&[1; 8]);
    Ok(object_of(alloc, &[variables, code], symbols.as_slice())?)
}

/// The objects of an image, separated by `/`.
pub(crate) fn files_of(alloc: Global, objects: &str) -> Result<Vec<Vec<u8>>, Fail> {
    let mut files = Vec::new(alloc);
    for words in objects.split('/') {
        files.push(object(alloc, words)?)?;
    }
    Ok(files)
}

/// Images, each after a `|`.
pub(crate) fn images_of(alloc: Global, text: &str) -> Result<Vec<Vec<Vec<u8>>>, Fail> {
    let mut images = Vec::new(alloc);
    for objects in text.split('|').skip(1) {
        images.push(files_of(alloc, objects)?)?;
    }
    Ok(images)
}

/// The objects of these files.
pub(crate) fn read<'a>(alloc: Global, files: &'a [Vec<u8>]) -> Result<Vec<Object<'a>>, Fail> {
    let mut objects = Vec::new(alloc);
    for file in files {
        objects.push(Object::read(alloc, file.as_slice())?)?;
    }
    Ok(objects)
}

/// The exports of at most 100 images of these objects, one after another.
pub(crate) fn exports_of<'a>(
    alloc: Global,
    images: &'a [Vec<Vec<u8>>],
) -> Result<Vec<Exports<'a>>, Fail>
    ensures { IfOk result (λ startup. length startup.items ≤ 100) }
{
    let mut startup = Vec::new(alloc);
    for image in images {
        let objects = read(alloc, image.as_slice())?;
        startup.push(exports(alloc, objects.as_slice())?)?;
    }
    if startup.len() > 100 {
        return Err(Fail::from("more than 100 images"));
    }
    Ok(startup)
}

/// Appends the names that an image exports, one after another.
fn push_names(exports: &Exports, text: &mut Vec<u8>) -> Result<(), AllocError> {
    for name in exports.names() {
        text.extend_from_slice(name)?;
        text.push(b' ')?;
    }
    text.push(b'/')?;
    Ok(())
}

/// The names that images export, with a `/` after each image's.
pub(crate) fn exported(alloc: Global, images: &[Vec<Vec<u8>>]) -> Result<Vec<u8>, Fail> {
    let startup = exports_of(alloc, images)?;
    let mut text = Vec::new(alloc);
    for exports in &startup {
        push_names(exports, &mut text)?;
    }
    Ok(text)
}

/// The binding of each relocation of each object's code, or the fault: `here OBJECT SYMBOL`, `startup
/// IMAGE`, `run-time` or `none`.
pub(crate) fn said(
    alloc: Global,
    files: &[Vec<u8>],
    images: &[Vec<Vec<u8>>],
) -> Result<String, Fail> {
    let objects = read(alloc, files)?;
    let startup = exports_of(alloc, images)?;
    match resolve(alloc, objects.as_slice(), startup.as_slice()) {
        Ok(bindings) => Ok(all_said(alloc, &bindings, objects.as_slice())?),
        Err(LinkFault::OutOfMemory) => Ok(String::from_str(alloc, "memory")?),
        Err(fault) => Ok(format!(in alloc; "{fault}")?),
    }
}

/// A binding, as text.
fn one_said(alloc: Global, binding: Option<Binding>) -> Result<String, AllocError> {
    match binding {
        Some(Binding::Here(found)) => {
            format!(in alloc; "here {} {} ", found.object, found.symbol)
        }
        Some(Binding::Startup(image)) => format!(in alloc; "startup {image} "),
        Some(Binding::Runtime) => String::from_str(alloc, "run-time "),
        None => String::from_str(alloc, "none "),
    }
}

/// Appends the binding of each relocation of an object's code.
fn push_said(
    alloc: Global,
    bindings: &Bindings,
    index: usize,
    object: &Object,
    text: &mut String,
) -> Result<(), AllocError>
    requires there { index < length bindings.now.objects }
    requires here { object.now ≡ object_at bindings.now.objects index }
{
    for relocation in object.relocs(CODE) {
        if relocation.symbol < object.symbol_count() {
            let one = one_said(alloc, bindings.binding_of(index, &relocation))?;
            text.push_str(one.as_str())?;
        }
    }
    Ok(())
}

/// The binding of each relocation, one after another.
fn all_said(alloc: Global, bindings: &Bindings, objects: &[Object]) -> Result<String, AllocError>
    requires { bindings.now.objects ≡ objects.now }
{
    let mut text = String::new(alloc);
    for (index, object) in objects.iter().enumerate() {
        push_said(alloc, bindings, index, object, &mut text)?;
    }
    Ok(text)
}
