//! Files that are fetched side by side: their order, and the first refusal.
use crate::disk::{Fault, FaultyDisk};
use ports::{FetchFault, HostStore, MemoryStore, Store, fetch_each};
use std::alloc::{AllocError, Global};
use std::rt::Files;
use std::test::Fail;
use std::thread::Threads;
use std::{env, fs, io, process};

/// A store with files `a` to `f`; each holds its own name, twice.
fn letters(alloc: Global) -> Result<MemoryStore, AllocError> {
    let mut store = MemoryStore::new(alloc);
    for name in ["a", "b", "c", "d", "e", "f"] {
        store.add(name, format!(in alloc; "{name}{name}")?.as_bytes())?;
    }
    Ok(store)
}

/// The files of these names, one after another.
fn joined<S: Store, R: Threads + Sync>(
    rt: &R,
    alloc: Global,
    store: &mut S,
    names: &[&str],
) -> Result<Vec<u8>, FetchFault> {
    let mut all = Vec::new(alloc);
    for file in fetch_each(rt, alloc, store, names)?.as_slice() {
        all.extend_from_slice(file.as_slice())?;
    }
    Ok(all)
}

#[test]
fn files_come_in_the_order_of_their_names(rt: HostRuntime) -> Result<(), Fail> {
    let mut store = letters(rt.alloc())?;
    for (names, text) in [
        ([].as_slice(), ""),
        (["b"].as_slice(), "bb"),
        (
            ["f", "a", "c", "a", "e", "d", "b", "f", "a"].as_slice(),
            "ffaaccaaeeddbbffaa",
        ),
    ] {
        match joined(&rt, rt.alloc(), &mut store, names) {
            Ok(all) => assert!(rt; all.as_slice() == text.as_bytes(), "{text}"),
            Err(_) => assert!(rt; false, "{text}"),
        }
    }
    assert!(rt; store.faults() == 0);
    Ok(())
}

#[test]
fn the_first_refusal_is_the_last_call(rt: HostRuntime) -> Result<(), Fail> {
    // The call that fails; the third name has no file, so one of the first three always fails.
    for fails_at in [0, 1, 2, 3] {
        let mut store = letters(rt.alloc())?;
        store.fail_at(fails_at);
        let names = ["a", "b", "none", "c", "none"];
        assert!(rt; joined(&rt, rt.alloc(), &mut store, &names) == Err(FetchFault::Failed));
        assert!(rt; store.faults() == 1, "failing at {fails_at}");
    }
    // Calls after the refused one are not counted: the fourth is the next.
    let mut store = letters(rt.alloc())?;
    store.fail_at(4);
    let names = ["a", "b", "none", "c", "d"];
    assert!(rt; joined(&rt, rt.alloc(), &mut store, &names) == Err(FetchFault::Failed));
    assert!(rt; joined(&rt, rt.alloc(), &mut store, &["a"]) == Err(FetchFault::Failed));
    assert!(rt; joined(&rt, rt.alloc(), &mut store, &["a"]).is_ok() && store.faults() == 2);
    Ok(())
}

/// The names of nine files in a folder. The first `there` of them exist, each a thousand bytes
/// longer than the one before.
fn lay_files<R: Files>(
    rt: &R,
    alloc: Global,
    folder: &str,
    there: usize,
) -> io::Result<Vec<String>> {
    let mut names = Vec::new(alloc);
    for number in 0..9usize {
        let name = format!(in alloc; "{folder}/{number}")?;
        if number < there {
            let bytes = Vec::from_elem(alloc, number as u8, number.saturating_mul(1000))?;
            fs::write(rt, name.as_str(), bytes.as_slice())?;
        }
        names.push(name)?;
    }
    Ok(names)
}

/// The length of each file that a store fetches side by side.
fn lengths<S: Store, R: Threads + Sync>(
    rt: &R,
    alloc: Global,
    store: &mut S,
    names: &[String],
) -> Result<Vec<usize>, FetchFault> {
    let mut texts = Vec::new(alloc);
    for name in names {
        texts.push(name.as_str()).map_err(AllocError::from)?;
    }
    let mut lengths = Vec::new(alloc);
    for file in fetch_each(rt, alloc, store, texts.as_slice())?.as_slice() {
        lengths
            .push(file.as_slice().len())
            .map_err(AllocError::from)?;
    }
    Ok(lengths)
}

/// Fetches nine files, then eight that exist and one that does not, and then over a disk that gives a wrong length.
fn fetches_of_host<R: Threads + Sync>(
    rt: &HostRuntime,
    threads: &R,
    alloc: Global,
    folder: &str,
) -> io::Result<bool> {
    let expected = [0, 1000, 2000, 3000, 4000, 5000, 6000, 7000, 8000];
    let mut store = HostStore::new(rt, alloc);
    let names = lay_files(rt, alloc, folder, 8)?;
    let none = lengths(threads, alloc, &mut store, names.as_slice());
    let faults = store.faults();
    let names = lay_files(rt, alloc, folder, 9)?;
    let all = lengths(threads, alloc, &mut store, names.as_slice());
    let disk = FaultyDisk {
        disk: rt,
        fault: Fault::Length(4_500, None),
    };
    let longer = lengths(
        threads,
        alloc,
        &mut HostStore::new(&disk, alloc),
        names.as_slice(),
    );
    let is_all = matches!(&all, Ok(all) if all.as_slice() == expected.as_slice());
    let is_longer = matches!(&longer, Ok(all) if all.as_slice() == [4_500; 9].as_slice());
    Ok(is_all && is_longer && none.is_err() && (faults, store.faults()) == (1, 1))
}

#[test]
fn a_host_store_is_read_by_several_threads(rt: HostRuntime) -> Result<(), Fail> {
    let temp = env::temp_dir(&rt)?;
    let path = temp.as_path().as_str();
    let id = process::id(rt.process());
    let folder = format!(in rt.alloc(); "{path}/tlsld-many-files-{id}")?;
    fs::create_dir(&rt, folder.as_str())?;
    let is_fetched = fetches_of_host(&rt, &rt, rt.alloc(), folder.as_str());
    fs::remove_dir_all(&rt, folder.as_str())?;
    assert!(rt; is_fetched?);
    Ok(())
}
