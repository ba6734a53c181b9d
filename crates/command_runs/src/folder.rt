//! A folder: files in memory, and commands over them.

use crate::patches::patched;
use crate::rows::Answer;
use anyhow::{Context, Result, ensure};
use commands::tlsld;
use ports::{MemorySink, MemoryStore, Store};
use std::alloc::{AllocError, Global};
use std::str;
use std::sync::Wait;
use std::thread::Threads;

/// A folder.
#[derive(Drop)]
pub(crate) struct Folder {
    pub(crate) alloc: Global,
    pub(crate) title: String,
    files: MemoryStore,
    /// The file whose lines are read.
    text: String,
}

/// How a command ended.
#[derive(Drop)]
pub(crate) struct Ended {
    pub(crate) status: u8,
    out: MemorySink,
}

impl Ended {
    /// What it printed.
    pub(crate) fn text(&self) -> Result<&str> {
        str::from_utf8(self.out.bytes()).context("the program printed no text")
    }
}

/// The bytes of a file in the store.
pub(crate) fn fetched<S: Store>(alloc: Global, store: &mut S, path: &str) -> Result<Vec<u8>> {
    let mut bytes = Vec::new(alloc);
    store
        .fetch(path, &mut bytes)
        .context(format_args!("reading {path}"))?;
    Ok(bytes)
}

/// The words of a command.
fn words_of(alloc: Global, text: &str) -> Result<Vec<String>, AllocError> {
    let mut words = Vec::new(alloc);
    for word in text.split(' ') {
        words.push(String::from_str(alloc, word)?)?;
    }
    Ok(words)
}

impl Folder {
    /// A folder without files.
    pub(crate) fn new(alloc: Global, title: &str) -> Result<Folder, AllocError> {
        Ok(Folder {
            alloc,
            title: String::from_str(alloc, title)?,
            files: MemoryStore::new(alloc),
            text: String::new(alloc),
        })
    }

    /// The bytes of a file, if it is there.
    pub(crate) fn get(&self, name: &str) -> Option<&[u8]> {
        self.files.get(name)
    }

    /// The bytes of a file.
    pub(crate) fn bytes(&self, name: &str) -> Result<&[u8]> {
        self.get(name).context(format_args!("no file {name}"))
    }

    /// A copy of the bytes of a file.
    pub(crate) fn copy(&self, name: &str) -> Result<Vec<u8>> {
        Ok(Vec::from_slice(self.alloc, self.bytes(name)?)?)
    }

    /// A copy of the text of a file.
    fn copy_text(&self, name: &str) -> Result<String> {
        let text = str::from_utf8(self.bytes(name)?).context(format_args!("{name} is no text"))?;
        Ok(String::from_str(self.alloc, text)?)
    }

    /// The text that an answer expects.
    pub(crate) fn wanted(&self, answer: Answer) -> Result<String> {
        match answer {
            Answer::Line(line) => Ok(format!(in self.alloc; "{line}\n")?),
            Answer::File(name) => self.copy_text(name),
        }
    }

    /// Gives a file these bytes.
    pub(crate) fn put(&mut self, name: &str, bytes: &[u8]) -> Result<(), AllocError> {
        self.files.add(name, bytes)
    }

    /// Changes bytes of a file at some places.
    pub(crate) fn patch(&mut self, name: &str, places: &str) -> Result<()> {
        let bytes = patched(self.alloc, self.bytes(name)?, places)?;
        Ok(self.put(name, bytes.as_slice())?)
    }

    /// Makes a file of the first `length` bytes of `whole`, which has more.
    pub(crate) fn cut(&mut self, name: &str, whole: &[u8], length: usize) -> Result<()> {
        ensure!(length < whole.len(), "{name} is no longer than {length}");
        Ok(self.put(name, &whole[..length])?)
    }

    /// Begins a file; its lines follow.
    pub(crate) fn begin_text(&mut self, name: &str) -> Result<(), AllocError> {
        self.text = String::from_str(self.alloc, name)?;
        self.put(name, b"")
    }

    /// Adds a line to the last file that was begun.
    pub(crate) fn push_line(&mut self, line: &str) -> Result<()> {
        let name = self.text.clone()?;
        let mut bytes = self.copy(name.as_str())?;
        bytes.extend_from_slice(line.as_bytes())?;
        bytes.push(b'\n')?;
        Ok(self.put(name.as_str(), bytes.as_slice())?)
    }

    /// Extends a file to this length with zeros.
    pub(crate) fn pad(&mut self, name: &str, length: usize) -> Result<()> {
        let mut bytes = self.copy(name)?;
        bytes.resize(length, 0)?;
        Ok(self.put(name, bytes.as_slice())?)
    }

    /// Makes the store fail at this call, counted from 1 from now on; 0 means at none.
    pub(crate) fn fail_store(&mut self, call: u64) {
        self.files.fail_at(call);
    }

    /// Runs a command over the files, with a sink that fails after `taken` bytes, if given; returns how it ends.
    pub(crate) fn ended<R: Threads + Wait + Sync>(
        &mut self,
        rt: &R,
        words: &str,
        taken: Option<u64>,
    ) -> Result<Ended> {
        let words = words_of(self.alloc, words)?;
        let mut out = MemorySink::new(self.alloc);
        if let Some(count) = taken {
            out.fail_part(1, count);
        }
        let status = tlsld(rt, self.alloc, words.as_slice(), &mut self.files, &mut out);
        Ok(Ended { status, out })
    }
}
