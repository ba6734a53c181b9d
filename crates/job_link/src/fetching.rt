//! Fetches the files of objects, once each.

ghost use Rattle.std.specs.Prelude.{◌≡◌, ◌++◌, [], ℕ, List, IfOk, IfSome, OnErr, OnOk};
ghost use Rattle.elf_records.specs.FieldLaws.{AreBytes};
ghost use Rattle.ports.specs.Counts.{FetchCounts};
ghost use Rattle.ports.specs.Files.{Fetches};
ghost use Rattle.job_link.specs.Mentions.{bytes_in, object_names, AreFilesOf};
ghost use Rattle.job_link.specs.Walks.{texts, unseen, with_unseen};

use indexmap::IndexSet;
use job_text::{Image, Job};
use ports::{FetchFault, Store, fetch_each};
use std::alloc::{AllocError, Global};
use std::marker::Model;
use std::thread::Threads;

/// Bytes are numbers below 256. The call does nothing; it gives a proof this fact.
fn are_small(bytes: &[u8])
    ensures { AreBytes bytes.now }
{}

/// A thread of its own pays for this many bytes of objects.
const WORTH_A_THREAD: usize = 1 << 18;

/// The files of a job's objects. Contracts see each name with its bytes.
#[derive(Drop)]
pub struct Files<'j> {
    names: IndexSet<&'j str>,
    files: Vec<Vec<u8>>,
}

impl<'j> Model for Files<'j> {
    ghost use Rattle.std.specs.Prelude.{◌≡◌, length};
    ghost use Rattle.job_link.specs.Mentions.{Fetched};
    ghost use Rattle.job_link.specs.Walks.{files_in};

    ghost Value = { Fetched };

    ghost view = { λ all. files_in all.names.keys all.files.items };

    ghost invariant = { λ all. length all.files.items ≡ length all.names.keys };
}

impl<'j> Files<'j> {
    /// No files.
    pub fn empty(alloc: Global) -> Self
        ensures { result ≡ [] }
    {
        Files {
            names: IndexSet::new(alloc),
            files: Vec::new(alloc),
        }
    }

    /// Adds a file that is in no store, unless its name is there already. If memory runs out, the files are as before.
    pub fn add(&mut self, name: &'j str, bytes: &[u8]) -> Result<(), AllocError>
        ensures added { OnOk result (self.new ≡ with_unseen self.old name.now bytes.now) }
        ensures kept { OnErr result (self.new ≡ self.old) }
    {
        if self.names.contains(name) {
            return Ok(());
        }
        let file = Vec::from_slice(*self.names.allocator(), bytes)?;
        self.files.reserve(1)?;
        self.names.insert(name)?;
        self.files.push(file).unwrap();
        Ok(())
    }

    /// The bytes of the file of that name; empty if it was not fetched.
    pub fn file(&self, name: &str) -> &[u8]
        ensures { result.now ≡ bytes_in self.now name.now }
    {
        match self.names.get_index_of(name) {
            Some(place) => self.files[place].as_slice(),
            None => &[],
        }
    }

    /// How many files of the mean size are worth a thread of their own; at least one.
    pub(crate) fn share(&self) -> usize {
        let mut total: usize = 0;
        for file in self.files.as_slice() {
            total = total.saturating_add(file.as_slice().len());
        }
        let mean = total / self.names.len().max(1);
        WORTH_A_THREAD.div_ceil(mean.max(1))
    }

    /// Files hold bytes, numbers below 256. The call does nothing; it gives a proof this fact.
    pub fn are_bytes(&self)
        ensures { (name : List ℕ) → AreBytes (bytes_in self.now name) }
    {
        for file in self.files.as_slice() {
            are_small(file.as_slice());
        }
    }
}

/// Adds the names of an image's objects that are not there yet.
fn add_names<'j>(names: &mut IndexSet<&'j str>, image: &'j Image) -> Result<(), AllocError>
    ensures { OnOk result (texts names.new.keys
        ≡ texts names.old.keys ++ unseen (texts names.old.keys) image.now.objects) }
{
    for object in image.objects.as_slice() {
        names.insert(object.as_str())?;
    }
    Ok(())
}

/// The names of the objects of a job, each once, in the order of first mentions.
fn names_once<'j>(alloc: Global, job: &'j Job) -> Result<IndexSet<&'j str>, AllocError>
    ensures { IfOk result (λ names. texts names.keys ≡ object_names job.now) }
{
    let mut names = IndexSet::new(alloc);
    for number in job.mentions() {
        add_names(&mut names, job.image(*number))?;
    }
    Ok(names)
}

/// Fetches each object of a job once, in the order of first mentions. Threads read side by side.
pub fn fetch_objects<'j, R: Threads + Sync, S: Store>(
    rt: &R,
    alloc: Global,
    store: &mut S,
    job: &'j Job,
) -> Result<Files<'j>, FetchFault>
    ensures files { S.files store.new ≡ S.files store.old }
    ensures cause { FetchCounts (S.faults store.old) (S.faults store.new) result }
    ensures asked { Fetches (object_names job.now) (S.asked store.old) (S.asked store.new) result }
    ensures bytes { IfSome (S.files store.old) (λ fs. IfOk result (AreFilesOf fs (object_names job.now))) }
    ensures out { S.out store.new ≡ S.out store.old }
{
    let Ok(names) = names_once(alloc, job) else {
        return Err(FetchFault::OutOfMemory);
    };
    match fetch_each(rt, alloc, store, names.as_slice()) {
        Ok(files) => Ok(Files { names, files }),
        Err(fault) => Err(fault),
    }
}
