//! A thread's first access to a module's variables fails only if memory runs out. Then its vector is unchanged, and
//! the same access made again finds the fresh block. Taking events allocates no memory. A test that ran out of memory
//! says so in a line.

ghost use Rattle.std.specs.Prelude.{◌≡◌, IfOk};
ghost use Rattle.loaded_modules.specs.Images.{infos, last_offset};

use crate::images::{plug_image, program_image};
use crate::loading::{Unready, loaded};
use image_file::Image;
use loaded_modules::Modules;
use module_table::{OpenRefusal, Registry};
use std::alloc::{AllocError, Global};
use std::io::Print;
use std::process::Abort;
use std::test::Fail;
use thread_vector::{AddressRefusal, Dtv};

const JOB: &str = "image app exe app.o
image plug late plug.o
";

/// These two images.
fn both(alloc: Global, program: Image, plug: Image) -> Result<Vec<Image>, AllocError> {
    Ok(vec![in alloc; program, plug]?)
}

/// The images of that job.
fn modules_of(rt: &impl Abort, alloc: Global) -> Result<Modules, Unready> {
    let images = both(alloc, program_image(alloc)?, plug_image(alloc)?)?;
    let (_, modules) = loaded(alloc, JOB, images)?;
    assert!(rt; modules.image_count() == 2);
    Ok(modules)
}

/// A history in which the plug was opened.
fn history_of(rt: &impl Abort, alloc: Global, modules: &Modules) -> Result<Registry, AllocError>
    ensures infos { IfOk result (λ registry. registry.infos ≡ infos modules.now) }
    ensures last_offset { IfOk result (λ registry. registry.last_offset ≡ last_offset modules.now) }
{
    let mut registry = Registry::new(alloc, modules.infos(), modules.last_offset())?;
    match registry.open(1, 1, 2) {
        Ok(_) => Ok(registry),
        Err(refusal) => {
            assert!(rt; refusal == OpenRefusal::OutOfMemory, "{refusal}");
            Err(AllocError)
        }
    }
}

/// The vector of thread 1, which has seen that history.
fn vector_of<'m>(
    rt: &impl Abort,
    alloc: Global,
    modules: &'m Modules,
    registry: &Registry,
) -> Result<Dtv<'m>, AllocError>
    requires infos { registry.now.infos ≡ infos modules.now }
    requires last_offset { registry.now.last_offset ≡ last_offset modules.now }
{
    let mut dtv = Dtv::new(alloc, 1, modules)?;
    let events = registry.since(0);
    assert!(rt; dtv.seen() == 0 && events.len() == 1);
    dtv.catch_up(events);
    Ok(dtv)
}

/// Checks that the vector has seen the open, and has the program's block alone.
fn expect_first_block(rt: &impl Abort, dtv: &Dtv) {
    assert!(rt; dtv.seen() == 1 && dtv.live(2) && dtv.current(2) == Some(2));
    assert!(rt;
        !dtv.has_block(2) && dtv.block(2).is_none(),
        "a block of the plug"
    );
    assert!(rt;
        dtv.block(1) == Some(b"\x2a\0\0\0".as_slice()),
        "the program's block"
    );
}

/// The address of a place in the block of module id 2, for the program.
fn address(rt: &impl Abort, dtv: &mut Dtv) -> Result<u64, AddressRefusal> {
    assert!(rt; dtv.instance_of(2).is_some());
    dtv.address(1, 2, 3)
}

/// Asks for an address in a block that is not there yet, and once more if that fails.
fn ask_twice(rt: &(impl Abort + Print), dtv: &mut Dtv) {
    let mut answer = address(rt, dtv);
    if answer == Err(AddressRefusal::OutOfMemory) {
        expect_first_block(rt, dtv);
        let _ = println!(rt; "refused: Dtv::address");
        answer = address(rt, dtv);
    }
    // Thread 1's blocks lie from 2^40 on, and that of instance 2 lies 2 * 2^24 further.
    assert!(rt; answer == Ok(0x100_0200_0003), "an address: {answer:?}");
    assert!(rt;
        dtv.block(2) == Some(b"\x05\0\0\0\0\0\0\0".as_slice()),
        "the plug's block"
    );
}

/// Lets a thread take the open of the plug.
fn take_events(rt: &impl Abort, alloc: Global) -> Result<(), Unready> {
    let modules = modules_of(rt, alloc)?;
    let registry = history_of(rt, alloc, &modules)?;
    let dtv = vector_of(rt, alloc, &modules, &registry)?;
    expect_first_block(rt, &dtv);
    Ok(())
}

/// Lets a thread take the open of the plug, and asks for an address in it.
fn take_and_ask(rt: &(impl Abort + Print), alloc: Global) -> Result<(), Unready> {
    let modules = modules_of(rt, alloc)?;
    let registry = history_of(rt, alloc, &modules)?;
    let mut dtv = vector_of(rt, alloc, &modules, &registry)?;
    ask_twice(rt, &mut dtv);
    Ok(())
}

/// Ignores out of memory and no other failure.
fn expect_ready(rt: &impl Abort, ended: Result<(), Unready>) {
    assert!(rt;
        ended.is_ok() || ended == Err(Unready::OutOfMemory),
        "{ended:?}"
    );
}

#[test]
fn catching_up_asks_for_nothing(rt: HostRuntime) -> Result<(), Fail> {
    let ended = take_events(&rt, rt.alloc());
    expect_ready(&rt, ended);
    Ok(())
}

#[test]
fn refused_first_address(rt: HostRuntime) -> Result<(), Fail> {
    let ended = take_and_ask(&rt, rt.alloc());
    expect_ready(&rt, ended);
    Ok(())
}
