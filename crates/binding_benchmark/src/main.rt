//! Measures how long it takes to bind names.
//!
//! `binding_benchmark OBJECTS [time]` makes OBJECTS objects, from 1 to 10,000. Each defines 100 thread-local
//! variables and uses the 100 of the object before it. With `time` it prints how long it took to bind the names of
//! all objects, and then to look up the binding of each relocation's symbol.
#![tactic(auto)]

ghost use Rattle.std.specs.Prelude.{◌≡◌, ◌<◌, length};
ghost use Rattle.tls_symbols.specs.Bindings.{object_at};

use anyhow::{Context, Result, ensure};
use elf_object::Object;
use elf_records::Rela;
use elf_records::relocation::R_X86_64_TPOFF32;
use elf_records::symbol::{STT_NOTYPE, STT_TLS};
use link_faults::Binding;
use object_builder::{Section, Symbol, object_of, rela};
use std::alloc::{AllocError, Global};
use std::rt::Clock;
use std::time::{Duration, Instant};
use std::{env, io};
use tls_symbols::{Bindings, resolve};

/// How many variables an object defines, and how many it uses.
const VARIABLES: u32 = 100;

/// Bytes of code: eight for each use.
const CODE_SIZE: usize = 800;

/// The names of an object's variables.
fn names(alloc: Global, object: u32) -> Result<Vec<String>, AllocError> {
    let mut names = Vec::new(alloc);
    for number in 0..VARIABLES {
        names.push(format!(in alloc; "object_{object}_variable_{number}")?)?;
    }
    Ok(names)
}

/// Symbols that define variables, and after them those of variables that are used.
fn symbols<'a>(
    alloc: Global,
    own: &'a [String],
    used: &'a [String],
) -> Result<Vec<Symbol<'a>>, AllocError> {
    let mut symbols = Vec::new(alloc);
    for name in own {
        symbols.push(Symbol::global(name.as_bytes(), STT_TLS, 1, 0, 4))?;
    }
    for name in used {
        symbols.push(Symbol::global(name.as_bytes(), STT_NOTYPE, 0, 0, 0))?;
    }
    Ok(symbols)
}

/// A relocation for each variable that is used.
fn relocations(alloc: Global) -> Result<Vec<Rela>, AllocError> {
    let mut relocations = Vec::new(alloc);
    for number in 0..VARIABLES {
        relocations.push(rela(
            8 * u64::from(number),
            R_X86_64_TPOFF32,
            1 + VARIABLES + number,
            0,
        ))?;
    }
    Ok(relocations)
}

/// An object that defines its variables and uses those of another one.
fn example(alloc: Global, object: u32, other: u32) -> Result<Vec<u8>, AllocError> {
    let own = names(alloc, object)?;
    let used = names(alloc, other)?;
    let symbols = symbols(alloc, own.as_slice(), used.as_slice())?;
    let relocations = relocations(alloc)?;
    let variables = Section::variables(&[1; 4]);
    let code = Section::code(&[0x90; CODE_SIZE]).with(relocations.as_slice());
    object_of(alloc, &[variables, code], symbols.as_slice())
}

/// The files of `number` objects.
fn files_of(alloc: Global, number: u32) -> Result<Vec<Vec<u8>>, AllocError> {
    let mut files = Vec::new(alloc);
    for object in 0..number {
        let other = if object == 0 { number - 1 } else { object - 1 };
        files.push(example(alloc, object, other)?)?;
    }
    Ok(files)
}

/// The objects of these files.
fn objects_of<'a>(alloc: Global, files: &'a [Vec<u8>]) -> Result<Vec<Object<'a>>> {
    let mut objects = Vec::new(alloc);
    for file in files {
        objects.push(Object::read(alloc, file.as_slice())?)?;
    }
    Ok(objects)
}

/// How many relocations of an object's code are bound to a symbol of the image.
fn count_in(bindings: &Bindings, index: usize, object: &Object) -> u64
    requires there { index < length bindings.now.objects }
    requires here { object.now ≡ object_at bindings.now.objects index }
{
    let mut count = 0_u64;
    for relocation in object.relocs(2) {
        if relocation.symbol < object.symbol_count() {
            if let Some(Binding::Here(_)) = bindings.binding_of(index, &relocation) {
                count = count.wrapping_add(1);
            }
        }
    }
    count
}

/// How many relocations of all objects' code are bound to a symbol of the image.
fn count_bound(bindings: &Bindings, objects: &[Object]) -> u64
    requires { bindings.now.objects ≡ objects.now }
{
    let mut count = 0_u64;
    for (index, object) in objects.iter().enumerate() {
        count = count.wrapping_add(count_in(bindings, index, object));
    }
    count
}

/// How many relocations are bound to a symbol of the image, and how long it took to look up.
fn tell(rt: &impl Clock, bindings: &Bindings, objects: &[Object]) -> io::Result<(u64, Duration)>
    requires { bindings.now.objects ≡ objects.now }
{
    let start = Instant::now(rt)?;
    let bound = count_bound(bindings, objects);
    Ok((bound, start.elapsed(rt)?))
}

/// Binds the names of all objects, and prints the results.
fn bind(
    rt: &(impl Print + Clock),
    alloc: Global,
    objects: &[Object],
    is_timed: bool,
) -> Result<()> {
    let start = Instant::now(rt)?;
    let bindings = resolve(alloc, objects, &[])?;
    let binding = start.elapsed(rt)?;
    let (bound, telling) = tell(rt, &bindings, objects)?;
    println!(rt; "{} objects, {bound} relocations bound", objects.len())?;
    if is_timed {
        println!(rt; "bound in {binding:?}, told in {telling:?}")?;
    }
    Ok(())
}

/// The number of objects.
fn number_of(word: Option<String>) -> Result<u32> {
    let number: u32 = word.context("how many objects")?.parse()?;
    ensure!(1 <= number && number <= 10_000, "1 to 10,000 objects");
    Ok(number)
}

fn main(rt: HostRuntime) -> Result<()> {
    let mut words = env::args(&rt)?.skip(1);
    let number = number_of(words.next())?;
    let is_timed = words.next().is_some();
    let files = files_of(rt.alloc(), number)?;
    let objects = objects_of(rt.alloc(), files.as_slice())?;
    bind(&rt, rt.alloc(), objects.as_slice(), is_timed)
}
