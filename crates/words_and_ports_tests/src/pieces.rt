//! Files that are put piece by piece: a few pieces, and more bytes than a run has.
ghost use Rattle.std.specs.Prelude.{[], ◌∷◌, map};

use crate::disk::{Fault, FaultyDisk};
use crate::files::{new_folder, path, read_back};
use file_bytes::Pieces;
use ports::{HostStore, MemoryStore, PutFault, Store};
use std::alloc::{AllocError, Global};
use std::test::Fail;
use std::{env, fs, io, process};

/// A file whose pieces are single bytes that are there.
#[derive(Clone, Copy)]
struct Parts<'b> {
    front: &'b [u8],
    bytes: &'b [u8],
    back: &'b [u8],
}

impl<'b> Pieces for Parts<'b> {
    ghost view = { λ a. record {
      front = a.front.now;
      pieces = map (λ byte. byte ∷ []) a.bytes.now;
      back = a.back.now;
    } };

    fn front(&self) -> &[u8] {
        self.front
    }

    fn back(&self) -> &[u8] {
        self.back
    }

    fn count(&self) -> usize {
        self.bytes.len()
    }

    fn start(&self, number: usize) -> usize {
        number
    }

    fn make(&self, from: usize, to: usize, into: &mut [u8]) {
        into.copy_from_slice(&self.bytes[from..to]);
    }
}

#[test]
fn a_store_in_memory_joins_pieces(rt: HostRuntime) -> Result<(), Fail> {
    let parts = Parts {
        front: b"<",
        bytes: b"pieces",
        back: b">",
    };
    let mut store = MemoryStore::new(rt.alloc());
    store.fail_at(2);
    assert!(rt; store.put_pieces("a", &parts) == Ok(()));
    assert!(rt; store.put_pieces("b", &parts) == Err(PutFault::Failed));
    assert!(rt; store.get("a") == Some(b"<pieces>".as_slice()) && store.faults() == 1);
    assert!(rt; store.get("b").is_none());
    Ok(())
}

/// Puts the parts over an old file, twice: on a disk that fails, and on one that does not. Returns what the file then
/// holds, each time after a mark.
fn put_twice(
    rt: &HostRuntime,
    alloc: Global,
    folder: &str,
    parts: Parts<'_>,
) -> io::Result<(Vec<u8>, Vec<u8>)> {
    let file = path(alloc, folder, "file")?;
    fs::write(rt, file.as_str(), "old")?;
    let disk = FaultyDisk {
        disk: rt,
        fault: Fault::Write,
    };
    let _ = HostStore::new(&disk, alloc).put_pieces(file.as_str(), &parts);
    let refused = read_back(rt, alloc, file.as_str())?;
    let _ = HostStore::new(rt, alloc).put_pieces(file.as_str(), &parts);
    Ok((refused, read_back(rt, alloc, file.as_str())?))
}

/// Bytes for several runs, such that no two runs begin alike.
fn unlike_bytes(alloc: Global) -> Result<Vec<u8>, AllocError> {
    let mut bytes = vec![in alloc; 0; 5_000_000]?;
    for (number, byte) in bytes.iter_mut().enumerate() {
        *byte = (number % 251) as u8;
    }
    Ok(bytes)
}

#[test]
fn a_host_store_writes_pieces_in_runs(rt: HostRuntime) -> Result<(), Fail> {
    let alloc = rt.alloc();
    let bytes = unlike_bytes(alloc)?;
    let parts = Parts {
        front: b"<",
        bytes: bytes.as_slice(),
        back: b">",
    };
    let mut whole = MemoryStore::new(alloc);
    assert!(rt;
        whole.put_pieces(
            "marked",
            &Parts {
                front: b"><",
                ..parts
            }
        ) == Ok(())
    );
    let temp = env::temp_dir(&rt)?;
    let id = process::id(rt.process());
    let folder = new_folder(&rt, alloc, temp.as_path().as_str(), id, "put-pieces")?;
    let texts = put_twice(&rt, alloc, folder.as_str(), parts);
    fs::remove_dir_all(&rt, folder.as_str())?;
    let (refused, text) = texts?;
    assert!(rt; refused.as_slice() == b">old".as_slice());
    assert!(rt; whole.get("marked") == Some(text.as_slice()));
    Ok(())
}
