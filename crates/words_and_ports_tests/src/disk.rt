//! The host's disk with faults where a test says so: files of any length, and writes and renames that fail.
use std::alloc::Allocator;
use std::fs::{Metadata, OpenFile, OpenOptions};
use std::io;
use std::io::{Error, ErrorKind, Read, Seek, SeekFrom, Write};
use std::rt::Files;

/// A fault of a disk. Each read and write is interrupted by a signal once before it is done.
#[derive(Clone, Copy)]
pub enum Fault {
    /// A file has this length, whatever its bytes are, and then ends: with this error, if one is given.
    Length(usize, Option<ErrorKind>),
    /// A write fails.
    Write,
    /// Renaming fails.
    Rename,
}

/// The host's disk with a fault.
#[derive(Drop)]
pub struct FaultyDisk<'a, R: Files> {
    pub disk: &'a R,
    pub fault: Fault,
}

/// A file of such a disk.
#[derive(Drop)]
pub struct FaultyFile<F: Drop> {
    file: F,
    fault: Fault,
    was_interrupted: bool,
}

impl<F: Drop> FaultyFile<F> {
    /// Every other call is interrupted, beginning with the first.
    fn interrupts(&mut self) -> bool {
        self.was_interrupted = !self.was_interrupted;
        self.was_interrupted
    }
}

impl<F: Read + Drop> Read for FaultyFile<F> {
    fn read(&mut self, buf: &mut [u8]) -> io::Result<usize> {
        if self.interrupts() {
            return Err(Error::from(ErrorKind::Interrupted));
        }
        let Fault::Length(left, error) = self.fault else {
            return self.file.read(buf);
        };
        let count = buf.len().min(left);
        self.fault = Fault::Length(left - count, error);
        match error {
            Some(kind) if count == 0 => Err(Error::from(kind)),
            _ => Ok(count),
        }
    }
}

impl<F: Write + Drop> Write for FaultyFile<F> {
    fn write(&mut self, buf: &[u8]) -> io::Result<usize> {
        if self.interrupts() {
            return Err(Error::from(ErrorKind::Interrupted));
        }
        match self.fault {
            Fault::Write => Err(Error::from(ErrorKind::StorageFull)),
            _ => self.file.write(buf),
        }
    }

    fn flush(&mut self) -> io::Result<()> {
        self.file.flush()
    }
}

impl<F: Seek + Drop> Seek for FaultyFile<F> {
    fn seek(&mut self, to: SeekFrom) -> io::Result<u64> {
        self.file.seek(to)
    }
}

impl<F: OpenFile + Drop> OpenFile for FaultyFile<F> {
    fn metadata(&self) -> io::Result<Metadata> {
        self.file.metadata()
    }

    fn set_len(&self, size: u64) -> io::Result<()> {
        self.file.set_len(size)
    }

    fn sync_all(&self) -> io::Result<()> {
        self.file.sync_all()
    }

    fn sync_data(&self) -> io::Result<()> {
        self.file.sync_data()
    }
}

impl<'a, R: Files> Files for FaultyDisk<'a, R> {
    type File = FaultyFile<R::File>;

    type Dir = R::Dir;

    fn open_file(&self, how: &OpenOptions, path: &str) -> io::Result<FaultyFile<R::File>> {
        Ok(FaultyFile {
            file: self.disk.open_file(how, path)?,
            fault: self.fault,
            was_interrupted: false,
        })
    }

    fn open_dir(&self, path: &str) -> io::Result<R::Dir> {
        self.disk.open_dir(path)
    }

    fn metadata(&self, path: &str) -> io::Result<Metadata> {
        self.disk.metadata(path)
    }

    fn symlink_metadata(&self, path: &str) -> io::Result<Metadata> {
        self.disk.symlink_metadata(path)
    }

    fn copy(&self, from: &str, to: &str) -> io::Result<u64> {
        self.disk.copy(from, to)
    }

    fn rename(&self, from: &str, to: &str) -> io::Result<()> {
        match self.fault {
            Fault::Rename => Err(Error::from(ErrorKind::Other)),
            _ => self.disk.rename(from, to),
        }
    }

    fn remove_file(&self, path: &str) -> io::Result<()> {
        self.disk.remove_file(path)
    }

    fn create_dir(&self, path: &str) -> io::Result<()> {
        self.disk.create_dir(path)
    }

    fn remove_dir(&self, path: &str) -> io::Result<()> {
        self.disk.remove_dir(path)
    }

    fn remove_dir_all<B: Allocator>(&self, alloc: B, path: &str) -> io::Result<()> {
        self.disk.remove_dir_all(alloc, path)
    }
}
