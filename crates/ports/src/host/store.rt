//! The host's file system as a store.
ghost use Rattle.std.specs.Prelude.{◌≡◌, ◌≢◌, ◌+◌, ◌-◌, [], ◌∷◌, ◌++◌, ◌≤◌, length, take};
ghost use Rattle.std.specs.Prelude.{IsErr, IsErrOf, OnOk, OnErr, IfOk, IfSome, MatchOption};
ghost use Rattle.std.specs.List.{All, AllZip};
ghost use Rattle.ports.specs.Claims.{Brings, IsFileOf, IsFresh, IsRead, fewer};
ghost use Rattle.ports.specs.ClaimLaws.{Settles, never, untold_count};
ghost use Rattle.ports.specs.Counts.{counted, Counted, FetchCounts, PutCounts, faults_after_fetch, faults_after_put};
ghost use Rattle.ports.specs.Files.{file_at, with_file, with_names, IsFile};
ghost use Rattle.file_bytes.specs.Pieces.{whole, EachFits};

use crate::claims::claims_to;
use crate::settling::{Counts, settle_each};
use crate::{Aftermath, Claim, FetchFault, PutFault, Store};
use file_bytes::{Pieces, Whole, read_all, room_for, too_large, write_pieces};
use std::alloc::{AllocError, Global};
use std::fs::{File, OpenFile};
use std::io::{ErrorKind, Read};
use std::marker::Model;
use std::rt::Files;
use std::{fs, io};

/// The largest file that can be fetched: 256 MiB.
pub const LARGEST_FILE: usize = 1 << 28;

/// How many names a put tries for its new file.
const NAMES: u32 = 100;

/// A call that failed: the name that it was given, and what the host said.
#[derive(Drop)]
pub struct HostFault {
    pub name: String,
    pub error: io::Error,
}

/// A fault, if the host says why and there is memory for the name.
fn fault_of(alloc: Global, name: &str, error: Option<io::Error>) -> Option<HostFault> {
    let error = error?;
    let name = String::from_str(alloc, name).ok()?;
    Some(HostFault { name, error })
}

/// How often a store has failed, and its last fault.
#[derive(Drop)]
struct HostFaults {
    count: u64,
    last: Option<HostFault>,
}

impl HostFaults {
    fn new() -> Self
        ensures { result.count ≡ 0 }
    {
        HostFaults {
            count: 0,
            last: None,
        }
    }

    /// Counts a fault, up to the greatest value of the count, and remembers it.
    fn add(&mut self, alloc: Global, name: &str, error: Option<io::Error>)
        ensures after { self.new.count ≡ counted self.old.count }
        ensures rose { Counted self.old.count self.new.count }
    {
        self.count = self.count.saturating_add(1);
        self.last = fault_of(alloc, name, error);
    }
}

/// The files of the host, by path. Clauses say nothing of its files and names; a contract sees the store as
/// the count of its faults.
///
/// A fetch reads the file to its end, in one read if the file has the length that the host gives. It fails if the path
/// cannot be opened or read, or if the file has more than [`LARGEST_FILE`] bytes; no memory is allocated if the host
/// gives such a length. If a signal interrupts a read or write, it is tried again, up to a thousand times in a row;
/// then the call fails. If the host itself runs out of memory, the result is `OutOfMemory`, which is not a fault.
///
/// A put writes a new file `PATH.partN` next to the old one, and renames it to the path once all of it is
/// written. So a reader sees the old file or the whole new one. After a refused put the old file is as it was,
/// and the new one is removed. A put does not wait for the disk: it promises nothing for a loss of power. Only if
/// the path is not a plain file but, say, a device, a pipe or a link, are the bytes written to it in place; a
/// refused put may then leave a part.
///
/// The pieces of a file are made in one buffer, in runs of two mebibytes at most or of one larger piece. It is allocated
/// first, so that nothing has changed where there is no memory for it.
///
/// The store remembers its last fault, for a person to read; no clause speaks of it.
#[derive(Drop)]
pub struct HostStore<'a, R: Files + Sync> {
    rt: &'a R,
    alloc: Global,
    faults: HostFaults,
}

impl<'a, R: Files + Sync> Model for HostStore<'a, R> {
    ghost use Rattle.std.specs.Prelude.{ℕ};

    ghost Value = { ℕ };

    ghost view = { λ a. a.faults.count };
}

impl<'a, R: Files + Sync> HostStore<'a, R> {
    /// The files that `rt` reaches. Names of new files are allocated from `alloc`.
    pub fn new(rt: &'a R, alloc: Global) -> Self
        ensures { result ≡ 0 }
    {
        HostStore {
            rt,
            alloc,
            faults: HostFaults::new(),
        }
    }

    /// How often the store has failed.
    pub fn faults(&self) -> u64
        ensures { result ≡ self.now }
    {
        self.faults.count
    }
}

/// The brand of the claims of a [`HostStore`], which alone has a value of it.
pub struct HostBrand {
    _own: (),
}

impl<'a, R: Files + Sync> Store for HostStore<'a, R> {
    type Brand = HostBrand;

    ghost use Rattle.ports.specs.Files.{untold_files, untold_names};

    ghost files = { λ _. untold_files };

    ghost faults = { λ faults. faults };

    ghost asked = { λ _. untold_names };

    ghost out = { λ _. untold_count };

    fn fetch(&mut self, name: &str, into: &mut Vec<u8>) -> Result<(), FetchFault>
        ensures files { untold_files ≡ untold_files }
        ensures bytes { IfSome untold_files (λ fs. MatchOption (file_at fs name.now)
            (IsErr result) (λ b. OnOk result (into.new.items ≡ into.old.items ++ b))) }
        ensures appends { take (length into.old.items) into.new.items ≡ into.old.items }
        ensures kept { OnErr result (into.new.items ≡ into.old.items) }
        ensures cause { FetchCounts self.old self.new result }
        ensures asked { untold_names ≡ with_names (name.now ∷ []) untold_names }
        ensures out { untold_count ≡ untold_count }

        ensures fits { OnOk result (length into.new.items ≤ length into.old.items + LARGEST_FILE) }
        ensures count { self.new ≡ faults_after_fetch self.old result }
    {
        let alloc = self.alloc;
        match read_file(self.rt, name, into) {
            Ok(()) => Ok(()),
            Err(error) => {
                let fault = FetchFault::from(error);
                if let FetchFault::Failed = fault {
                    self.faults.add(alloc, name, Some(error));
                }
                Err(fault)
            }
        }
    }

    fn claim<'n>(
        &mut self,
        alloc: Global,
        names: &[&'n str],
    ) -> Result<Vec<Claim<'n, HostBrand>>, AllocError> {
        claims_to(alloc, &HostBrand { _own: () }, names)
    }

    fn read(&self, alloc: Global, claim: &mut Claim<'_, HostBrand>)
        requires fresh { IsFresh claim.old }
        ensures name { claim.new.name.now ≡ claim.old.name.now }
        ensures read { IsRead untold_files claim.new }

        ensures fits { IfSome claim.new.came (λ came. IfOk came (λ file. length file.items ≤ LARGEST_FILE)) }
    {
        let file = read_whole(self.rt, alloc, claim.name());
        claim.fill(&HostBrand { _own: () }, file);
    }

    fn settle(
        &mut self,
        alloc: Global,
        claims: Vec<Claim<'_, HostBrand>>,
    ) -> Result<Vec<Vec<u8>>, FetchFault>
        requires read { All (IsRead untold_files) claims.items }
        ensures files { untold_files ≡ untold_files }
        ensures bytes { IfOk result (λ came. AllZip (IsFileOf untold_files) claims.entry.items came.items) }
        ensures came { IfOk result (λ came. AllZip Brings claims.entry.items came.items) }
        ensures cause { FetchCounts self.old self.new result }
        ensures asked { untold_names ≡ untold_names }
        ensures out { untold_count ≡ fewer (length claims.entry.items) untold_count }

        ensures count { self.new ≡ faults_after_fetch self.old result }
        ensures settles { Settles never never claims.entry.items result }
    {
        settle_each(alloc, self, claims)
    }

    fn put(&mut self, name: &str, bytes: &[u8]) -> Result<(), PutFault>
        ensures ok { OnOk result (untold_files ≡ with_file name.now bytes.now untold_files) }
        ensures err { OnErr result (untold_files ≡ untold_files) }
        ensures cause { PutCounts self.old self.new result }
        ensures asked { untold_names ≡ untold_names }
        ensures out { untold_count ≡ untold_count }

        ensures count { self.new ≡ faults_after_put self.old result }
    {
        let pieces = Whole { bytes };
        put_file(self.rt, self.alloc, &mut self.faults, name, &pieces)
    }

    fn put_pieces<P: Pieces>(&mut self, name: &str, pieces: &P) -> Result<(), PutFault>
        ensures ok { OnOk result (untold_files ≡ with_file name.now (whole (P.view pieces.now)) untold_files) }
        ensures err { OnErr result (untold_files ≡ untold_files) }
        ensures cause { PutCounts self.old self.new result }
        ensures asked { untold_names ≡ untold_names }
        ensures out { untold_count ≡ untold_count }

        ensures count { self.new ≡ faults_after_put self.old result }
    {
        put_file(self.rt, self.alloc, &mut self.faults, name, pieces)
    }
}

impl<'a, R: Files + Sync> Aftermath for HostStore<'a, R> {
    ghost use Rattle.ports.specs.Files.{untold_files};

    ghost files = { λ _. untold_files };

    fn read_again(&self, alloc: Global, name: &str) -> io::Result<Vec<u8>> {
        read_plain(self.rt, alloc, name)
    }

    fn last_fault(&self) -> Option<&HostFault> {
        self.faults.last.as_ref()
    }
}

impl<'a, R: Files + Sync> Counts for HostStore<'a, R> {
    ghost use Rattle.ports.specs.Files.{untold_files};

    ghost files = { λ _. untold_files };

    ghost faults = { λ faults. faults };

    ghost due = { λ _. never };

    fn count(
        &mut self,
        name: &str,
        read: Result<Vec<u8>, FetchFault>,
    ) -> Result<Vec<u8>, FetchFault>
        ensures files { untold_files ≡ untold_files }
        ensures bytes { IfOk result (λ file. IsFile untold_files name.now file.items) }
        ensures cause { FetchCounts self.old self.new result }
        ensures count { self.new ≡ faults_after_fetch self.old result }
        ensures call { never ≡ never - 1 }
        ensures fails { never ≡ 1 → IsErrOf result FetchFault.Failed }
        ensures given { never ≢ 1 → result ≡ read }
    {
        if let Err(FetchFault::Failed) = read {
            // Threads share `read`, so it remembers nothing: the host is asked again.
            let alloc = self.alloc;
            let error = try_read(self.rt, name).err();
            self.faults.add(alloc, name, error);
        }
        read
    }
}

/// The bytes of the file, or why there are none.
fn read_whole<R: Files>(rt: &R, alloc: Global, name: &str) -> Result<Vec<u8>, FetchFault>
    ensures { IfOk result (λ file. length file.items ≤ LARGEST_FILE) }
{
    let mut file = Vec::new(alloc);
    read_file(rt, name, &mut file)?;
    Ok(file)
}

/// The bytes of a plain file. No other is opened, since a pipe may wait for a writer that has gone.
fn read_plain<R: Files>(rt: &R, alloc: Global, name: &str) -> io::Result<Vec<u8>> {
    if !fs::metadata(rt, name)?.is_file() {
        return Err(io::Error::from(ErrorKind::InvalidInput));
    }
    let mut file = Vec::new(alloc);
    read_file(rt, name, &mut file)?;
    Ok(file)
}

/// Appends the file's bytes. On a refusal `into` is as before.
fn read_file<R: Files>(rt: &R, name: &str, into: &mut Vec<u8>) -> io::Result<()>
    ensures fits { OnOk result (length into.new.items ≤ length into.old.items + LARGEST_FILE) }
    ensures begins { take (length into.old.items) into.new.items ≡ into.old.items }
    ensures kept { OnErr result (into.new.items ≡ into.old.items) }
{
    let mut file = fs::open(rt, name)?;
    let expected = usize::try_from(file.metadata()?.len()).unwrap_or(usize::MAX);
    read_all(&mut file, into, expected, LARGEST_FILE)
}

/// Tries to read the file once more, for the sake of the error alone. Only a plain file is opened: a pipe may wait for
/// a writer that has gone.
fn try_read<R: Files>(rt: &R, name: &str) -> io::Result<()> {
    let found = fs::metadata(rt, name)?;
    if found.is_dir() {
        return Err(io::Error::from(ErrorKind::IsADirectory));
    }
    if !found.is_file() {
        return Ok(());
    }
    let mut file = fs::open(rt, name)?;
    if found.len() > LARGEST_FILE as u64 {
        return Err(too_large());
    }
    let _count = file.read(&mut [0; 1])?;
    Ok(())
}

/// Replaces the content of the file. A fault is counted and remembered.
fn put_file<R: Files, P: Pieces>(
    rt: &R,
    alloc: Global,
    faults: &mut HostFaults,
    name: &str,
    pieces: &P,
) -> Result<(), PutFault>
    ensures cause { PutCounts faults.old.count faults.new.count result }
    ensures count { faults.new.count ≡ faults_after_put faults.old.count result }
{
    match write_file(rt, alloc, name, pieces) {
        Ok(()) => Ok(()),
        Err(error) => {
            let fault = PutFault::from(error);
            if let PutFault::Failed = fault {
                faults.add(alloc, name, Some(error));
            }
            Err(fault)
        }
    }
}

/// Replaces the content of the file, and says why it could not.
fn write_file<R: Files, P: Pieces>(
    rt: &R,
    alloc: Global,
    name: &str,
    pieces: &P,
) -> io::Result<()> {
    let mut buffer = room_for(alloc, pieces)?;
    if is_special(rt, name)? {
        write_pieces(&mut fs::create(rt, name)?, pieces, &mut buffer)
    } else {
        replace_file(rt, alloc, name, pieces, &mut buffer)
    }
}

/// Whether the name belongs to something that is not a plain file, such as a device, a pipe or a link.
fn is_special<R: Files>(rt: &R, name: &str) -> io::Result<bool> {
    match fs::symlink_metadata(rt, name) {
        Ok(found) => Ok(!found.is_file()),
        Err(error) if error.kind() == ErrorKind::NotFound => Ok(false),
        Err(error) => Err(error),
    }
}

/// Writes a new file next to `name`, and then renames it to `name`.
fn replace_file<R: Files, P: Pieces>(
    rt: &R,
    alloc: Global,
    name: &str,
    pieces: &P,
    buffer: &mut [u8],
) -> io::Result<()>
    requires { EachFits (length buffer.old) (P.view pieces.now).pieces }
{
    for number in 0..NAMES {
        let part = format!(in alloc; "{name}.part{number}")?;
        match File::create_new(rt, part.as_str()) {
            Ok(file) => return finish_file(rt, file, part.as_str(), name, pieces, buffer),
            Err(error) if error.kind() == ErrorKind::AlreadyExists => {}
            Err(error) => return Err(error),
        }
    }
    Err(io::Error::from(ErrorKind::AlreadyExists))
}

/// Fills the new file `part` and renames it, or removes it.
fn finish_file<R: Files, P: Pieces>(
    rt: &R,
    file: R::File,
    part: &str,
    name: &str,
    pieces: &P,
    buffer: &mut [u8],
) -> io::Result<()>
    requires { EachFits (length buffer.old) (P.view pieces.now).pieces }
{
    let answer = match fill_file(file, pieces, buffer) {
        Ok(()) => fs::rename(rt, part, name),
        Err(error) => Err(error),
    };
    if answer.is_err() {
        let _ = fs::remove_file(rt, part);
    }
    answer
}

/// Writes the pieces to the new file, and closes it.
fn fill_file<F: io::Write + Drop, P: Pieces>(
    mut file: F,
    pieces: &P,
    buffer: &mut [u8],
) -> io::Result<()>
    requires { EachFits (length buffer.old) (P.view pieces.now).pieces }
{
    write_pieces(&mut file, pieces, buffer)
}
