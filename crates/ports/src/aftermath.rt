//! A store when a command has ended, of which a person is told.
ghost use Rattle.std.specs.Prelude.{◌≡◌, IfOk, Option};
ghost use Rattle.ports.specs.Files.{Files, IsFile};

use crate::HostFault;
use std::alloc::Global;
use std::io;

/// A store when a command has ended: its files, and why one of them failed.
pub trait Aftermath {
    // The files by name, if the store shows them.
    ghost files: { Self → Option Files };

    /// Reads the file of that name once more, to show what a refusal is about.
    fn read_again(&self, alloc: Global, name: &str) -> io::Result<Vec<u8>>
        ensures { IfOk result (λ file. IsFile (files self.now) name.now file.items) };

    /// The last fault, unless there was no memory to remember it or the host does not say why it failed.
    fn last_fault(&self) -> Option<&HostFault>;
}
