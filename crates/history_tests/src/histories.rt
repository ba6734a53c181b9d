//! Histories as sequences of calls, with the expected numbers.

ghost use Rattle.std.specs.Bool.{OnTrue};
ghost use Rattle.module_table.specs.Modules.{AreInfos};

use crate::compared::same;
use module_table::{ImageInfo, Registry};
use std::alloc::{AllocError, Global};
use std::fmt::Debug;
use std::process::Abort;
use std::test::Fail;

/// Histories, separated by an empty line. The first line of each has the late images after the program, from image 2
/// on: their sizes, with `s` before each whose block is static. The program's block has 4 bytes and begins 4 bytes
/// below the thread pointer. Then comes a line for each call and its result: `open` and `close` with a thread, a line
/// and an image, and questions with one number. `reopen` closes and opens an image a number of times, and gives the
/// length of the history after that.
const HISTORIES: &str = "\
8
open 1 1 2: Ok(Opened { instance: 2, id: 2, at: 0 })
close 1 4 2: Ok(Closed { at: 1, gone: true })
open 1 5 2: Ok(Opened { instance: 3, id: 2, at: 2 })
current 2: Some(3)
instance_of 2: Some(3)
live 2: false
live 3: true
since 0: [Event { thread: 1, line: 1, opens: true, image: 2 }, Event { thread: 1, line: 4, opens: false, image: 2 }, \
Event { thread: 1, line: 5, opens: true, image: 2 }]

s4096 s1 s0 9
open 1 1 2: Ok(Opened { instance: 2, id: 2, at: 0 })
open 1 2 2: Ok(Opened { instance: 2, id: 2, at: 1 })
open 1 3 3: Err(StaticFull)
open 1 4 4: Ok(Opened { instance: 3, id: 3, at: 2 })
open 1 5 5: Ok(Opened { instance: 4, id: 4, at: 3 })
close 1 6 2: Ok(Closed { at: 4, gone: false })
close 1 7 2: Ok(Closed { at: 5, gone: true })
open 1 8 2: Err(StaticFull)
offset 3: Some(4100)
offset 4: None

8 8 8
open 1 1 2: Ok(Opened { instance: 2, id: 2, at: 0 })
open 1 2 3: Ok(Opened { instance: 3, id: 3, at: 1 })
close 1 3 2: Ok(Closed { at: 2, gone: true })
open 1 4 4: Ok(Opened { instance: 4, id: 2, at: 3 })
open 1 5 2: Ok(Opened { instance: 5, id: 4, at: 4 })
reopen 2 4090 0: 8185
close 1 1 2: Ok(Closed { at: 8185, gone: true })
open 1 2 2: Err(Full)
open 1 3 1: Err(Unknown)
open 1 4 3: Ok(Opened { instance: 3, id: 3, at: 8186 })";

// The first history asks each question once. The second: 4 + 4,096 is all of the surplus, and a close gives nothing
// back; an open that makes no instance needs no room. The third is longer than any job's lines allow: images 2 to 4
// stay loaded as instances 5, 3 and 4, each further load needs a close before it, and no instance has number 4,096.

/// Whether a registry may have these images.
fn are_images(infos: &[ImageInfo]) -> bool
    ensures { OnTrue result (AreInfos infos.now) }
{
    let mut late = false;
    for info in infos {
        if info.size > 1 << 20 || info.align == 0 || info.align > 4096 {
            return false;
        }
        if late && !info.late {
            return false;
        }
        late = info.late;
    }
    !infos.is_empty() && infos.len() <= 64
}

/// An image of `size` bytes, aligned to 4.
fn image(late: bool, statics: bool, size: u64) -> ImageInfo {
    ImageInfo {
        late,
        statics,
        size,
        align: 4,
    }
}

/// A number; 0 if there are no digits.
fn number(digits: Option<&str>) -> u32 {
    match digits {
        Some(digits) => digits.parse().unwrap_or(0),
        None => 0,
    }
}

/// The late image of a word.
fn late(word: &str) -> ImageInfo {
    match word.strip_prefix('s') {
        Some(size) => image(true, true, u64::from(number(Some(size)))),
        None => image(true, false, u64::from(number(Some(word)))),
    }
}

/// The program, and after it these late images.
fn images(alloc: Global, words: &str) -> Result<Vec<ImageInfo>, AllocError> {
    let mut infos = vec![in alloc; image(false, false, 4)]?;
    for word in words.split_whitespace() {
        infos.push(late(word))?;
    }
    Ok(infos)
}

/// A registry of these images.
fn registry_of(alloc: Global, words: &str) -> Result<Registry, Fail> {
    let infos = images(alloc, words)?;
    if !are_images(&infos) {
        return Err(Fail::from("images of a registry"));
    }
    Ok(Registry::new(alloc, &infos, 4)?)
}

fn shown<T: Debug>(alloc: Global, value: &T) -> Result<String, AllocError> {
    format!(in alloc; "{value:?}")
}

/// Closes and opens an image `count` times, and returns the length of the history after that.
fn reopen(registry: &mut Registry, image: u32, count: u32) -> u64 {
    for _ in 0..count {
        let _ = registry.close(1, 1, image);
        let _ = registry.open(1, 2, image);
    }
    registry.len()
}

/// The result of a call with three numbers.
fn changes(
    alloc: Global,
    registry: &mut Registry,
    verb: &str,
    first: u32,
    second: u32,
    third: u32,
) -> Result<String, AllocError> {
    match verb {
        "open" => shown(alloc, &registry.open(first, second, third)),
        "close" => shown(alloc, &registry.close(first, second, third)),
        _ => shown(alloc, &reopen(registry, first, second)),
    }
}

/// The answer to a question with one number.
fn asks(alloc: Global, registry: &Registry, verb: &str, of: u32) -> Result<String, AllocError> {
    match verb {
        "current" => shown(alloc, &registry.current(of)),
        "instance_of" => shown(alloc, &registry.instance_of(u64::from(of))),
        "live" => shown(alloc, &registry.live(of)),
        "offset" => shown(alloc, &registry.offset(of)),
        "since" => shown(alloc, &registry.since(0)),
        _ => shown(alloc, &registry.len()),
    }
}

/// The result of the call of a line.
fn answer(alloc: Global, registry: &mut Registry, call: &str) -> Result<String, AllocError> {
    let mut words = call.split(' ');
    let verb = words.next().unwrap_or("");
    let first = number(words.next());
    let Some(second) = words.next() else {
        return asks(alloc, registry, verb, first);
    };
    let third = number(words.next());
    changes(alloc, registry, verb, first, number(Some(second)), third)
}

/// Makes the calls of a history, and compares each result.
fn check(rt: &impl Abort, alloc: Global, history: &str) -> Result<(), Fail> {
    let (images, calls) = history.split_once('\n').ok_or("images")?;
    let mut registry = registry_of(alloc, images)?;
    for line in calls.lines() {
        let (call, want) = line.split_once(": ").ok_or("an answer")?;
        same(rt, answer(alloc, &mut registry, call)?.as_str(), want, line);
    }
    Ok(())
}

#[test]
fn histories(rt: HostRuntime) -> Result<(), Fail> {
    for history in HISTORIES.split("\n\n") {
        check(&rt, rt.alloc(), history)?;
    }
    Ok(())
}

/// 63 late images.
const MANY: &str = "\
s60 s60 s60 s60 s60 s60 s60 s60 s60 s60 s60 s60 s60 s60 s60 s60 s60 s60 s60 s60 s60 \
s60 s60 s60 s60 s60 s60 s60 s60 s60 s60 s60 s60 s60 s60 s60 s60 s60 s60 s60 s60 s60 \
s60 s60 s60 s60 s60 s60 s60 s60 s60 s60 s60 s60 s60 s60 s60 s60 s60 s60 s60 s60 s60";

/// Opens each image, and then the last one again and again.
fn open_all(registry: &mut Registry) {
    for image in 2..65u32 {
        let _ = registry.open(1, image, image);
    }
    for _ in 0..10_000u32 {
        let _ = registry.open(2, 1, 64);
        let _ = registry.close(2, 2, 64);
    }
}

// Opens and closes of a loaded image walk over nothing, however long the history is.
#[test]
fn holds_64_images_and_many_events(rt: HostRuntime) -> Result<(), Fail> {
    let mut registry = registry_of(rt.alloc(), MANY)?;
    open_all(&mut registry);
    assert!(rt; registry.offset(64) == Some(4 + 63 * 60) && registry.len() == 20_063);
    Ok(())
}

#[test]
fn reserves_and_copies(rt: HostRuntime) -> Result<(), Fail> {
    let mut registry = registry_of(rt.alloc(), "8")?;
    registry.reserve()?;
    let _ = registry.open(1, 1, 2);
    let mut copied = registry.copy()?;
    let _ = copied.close(1, 6, 2);
    assert!(rt; registry.live(2) && !copied.live(2));
    Ok(())
}
