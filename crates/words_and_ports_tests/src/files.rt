//! The host's files: what a store keeps, the largest file, and what is left after a put that failed.
use crate::disk::{Fault, FaultyDisk};
use ports::{FetchFault, HostStore, PutFault, Store};
use std::alloc::{AllocError, Global};
use std::fs::OpenFile;
use std::io::{Error, ErrorKind};
use std::os::unix::fs::symlink;
use std::rt::Files;
use std::test::Fail;
use std::{env, fs, io, process};

/// The content of the file of that name after a mark, fetched through the trait.
pub(crate) fn fetched<S: Store>(
    alloc: Global,
    store: &mut S,
    name: &str,
) -> Result<Vec<u8>, FetchFault> {
    let mut into = Vec::from_slice(alloc, b">")?;
    store.fetch(name, &mut into)?;
    Ok(into)
}

/// A new folder for one test.
pub(crate) fn new_folder<R: Files>(
    rt: &R,
    alloc: Global,
    temp: &str,
    id: u32,
    test: &str,
) -> io::Result<String> {
    let folder = format!(in alloc; "{temp}/tlsld-{test}-{id}")?;
    fs::create_dir(rt, folder.as_str())?;
    Ok(folder)
}

/// The content of a file after a mark.
pub(crate) fn read_back(rt: &HostRuntime, alloc: Global, name: &str) -> io::Result<Vec<u8>> {
    match fetched(alloc, &mut HostStore::new(rt, alloc), name) {
        Ok(text) => Ok(text),
        Err(_) => Err(Error::from(ErrorKind::Other)),
    }
}

/// The path of a file in a folder.
pub(crate) fn path(alloc: Global, folder: &str, name: &str) -> Result<String, AllocError> {
    format!(in alloc; "{folder}/{name}")
}

/// Makes a file that a failed put left, and a link to a file.
fn lay<R: Files>(rt: &R, alloc: Global, folder: &str, file: &str) -> io::Result<()> {
    fs::write(rt, path(alloc, folder, "file.part0")?.as_str(), "left over")?;
    symlink(rt, file, path(alloc, folder, "link")?.as_str())
}

/// Puts a file twice, and then through the link to it, and makes three calls that fail.
fn put_all<S: Store>(store: &mut S, alloc: Global, folder: &str, file: &str) -> io::Result<()> {
    let _ = store.put(file, b"an old and longer text");
    let _ = store.put(file, b"a text");
    let _ = store.put(path(alloc, folder, "link")?.as_str(), b"by the link");
    let _ = store.put(folder, b"x");
    let _ = fetched(alloc, store, folder);
    let _ = fetched(alloc, store, path(alloc, folder, "none")?.as_str());
    Ok(())
}

/// The content of a file after that, and how many faults there were.
fn keeps_files(rt: &HostRuntime, alloc: Global, folder: &str) -> io::Result<(Vec<u8>, u64)> {
    let file = path(alloc, folder, "file")?;
    lay(rt, alloc, folder, file.as_str())?;
    let mut store = HostStore::new(rt, alloc);
    put_all(&mut store, alloc, folder, file.as_str())?;
    Ok((read_back(rt, alloc, file.as_str())?, store.faults()))
}

#[test]
fn a_host_store_keeps_files(rt: HostRuntime) -> Result<(), Fail> {
    let temp = env::temp_dir(&rt)?;
    let id = process::id(rt.process());
    let folder = new_folder(&rt, rt.alloc(), temp.as_path().as_str(), id, "keeps-files")?;
    let kept = keeps_files(&rt, rt.alloc(), folder.as_str());
    fs::remove_dir_all(&rt, folder.as_str())?;
    let (text, faults) = kept?;
    assert!(rt; text.as_slice() == b">by the link".as_slice() && faults == 3);
    Ok(())
}

/// The length of a file that is fetched from a disk with this fault.
fn fetched_length(
    rt: &HostRuntime,
    alloc: Global,
    file: &str,
    fault: Fault,
) -> Result<usize, FetchFault> {
    let disk = FaultyDisk { disk: rt, fault };
    let mut store = HostStore::new(&disk, alloc);
    Ok(fetched(alloc, &mut store, file)?.len().saturating_sub(1))
}

#[test]
fn a_host_store_fetches_up_to_2_to_28_bytes(rt: HostRuntime) {
    for (length, error, answer) in [
        (5_000, None, Ok(5_000)),
        (268_435_456, None, Ok(268_435_456)),
        (268_435_457, None, Err(FetchFault::Failed)),
        (
            5_000,
            Some(ErrorKind::OutOfMemory),
            Err(FetchFault::OutOfMemory),
        ),
        (5_000, Some(ErrorKind::Other), Err(FetchFault::Failed)),
    ] {
        let fetched = fetched_length(&rt, rt.alloc(), "/dev/null", Fault::Length(length, error));
        assert!(rt; fetched == answer, "{length} bytes");
    }
}

/// Fetches a file whose length differs from the one that the disk gives.
fn fetched_from(
    rt: &HostRuntime,
    alloc: Global,
    file: &str,
    told: u64,
    length: usize,
) -> io::Result<Result<usize, FetchFault>> {
    fs::create(rt, file)?.set_len(told)?;
    Ok(fetched_length(rt, alloc, file, Fault::Length(length, None)))
}

/// Fetches files that are shorter than the disk says, as long, longer, and too long.
fn told_lengths(
    rt: &HostRuntime,
    alloc: Global,
    folder: &str,
) -> io::Result<[Result<usize, FetchFault>; 4]> {
    let file = path(alloc, folder, "file")?;
    let file = file.as_str();
    Ok([
        fetched_from(rt, alloc, file, 6_000, 5_000)?,
        fetched_from(rt, alloc, file, 6_000, 6_000)?,
        fetched_from(rt, alloc, file, 6_000, 20_000)?,
        fetched_from(rt, alloc, file, 268_435_457, 0)?,
    ])
}

#[test]
fn a_told_length_is_a_hint_but_for_its_limit(rt: HostRuntime) -> Result<(), Fail> {
    let temp = env::temp_dir(&rt)?;
    let id = process::id(rt.process());
    let folder = new_folder(&rt, rt.alloc(), temp.as_path().as_str(), id, "told-lengths")?;
    let lengths = told_lengths(&rt, rt.alloc(), folder.as_str());
    fs::remove_dir_all(&rt, folder.as_str())?;
    assert!(rt; lengths? == [Ok(5_000), Ok(6_000), Ok(20_000), Err(FetchFault::Failed)]);
    Ok(())
}

/// Puts over an old file, on a disk that fails in one way, and returns whether the put failed.
fn put_fails(rt: &HostRuntime, alloc: Global, file: &str, fault: Fault) -> bool {
    let disk = FaultyDisk { disk: rt, fault };
    let mut store = HostStore::new(&disk, alloc);
    store.put(file, b"a text") == Err(PutFault::Failed) && store.faults() == 1
}

/// Puts over an old file, on disks that fail in each way, and returns what the file then holds, if each put failed. The
/// folder can be removed only if no other file is left.
fn survives_failing_puts(rt: &HostRuntime, alloc: Global, folder: &str) -> io::Result<Vec<u8>> {
    let file = path(alloc, folder, "file")?;
    fs::write(rt, file.as_str(), "old")?;
    for fault in [Fault::Write, Fault::Rename] {
        if !put_fails(rt, alloc, file.as_str(), fault) {
            return Err(Error::from(ErrorKind::Other));
        }
    }
    let text = read_back(rt, alloc, file.as_str())?;
    fs::remove_file(rt, file.as_str())?;
    fs::remove_dir(rt, folder)?;
    Ok(text)
}

#[test]
fn a_put_that_fails_leaves_the_old_file_alone(rt: HostRuntime) -> Result<(), Fail> {
    let temp = env::temp_dir(&rt)?;
    let id = process::id(rt.process());
    let folder = new_folder(&rt, rt.alloc(), temp.as_path().as_str(), id, "failing-puts")?;
    let text = survives_failing_puts(&rt, rt.alloc(), folder.as_str())?;
    assert!(rt; text.as_slice() == b">old".as_slice());
    Ok(())
}
