//! The commands that a user can give.
ghost use Rattle.std.specs.Prelude.{◌≡◌};
ghost use Rattle.command_line.specs.Rewritings.{is_allowed};

use crate::Text;
use thiserror::Error;

/// Whether the linker may rewrite the code sequences that the compiler wrote.
#[derive(Clone, Copy)]
pub enum Rewriting {
    /// It may, if a shorter or faster one serves.
    Allowed,
    /// Each sequence stays as the compiler wrote it.
    Off,
}

impl Rewriting {
    /// Whether it may.
    pub fn is_allowed(self) -> bool
        ensures { result ≡ is_allowed self }
    {
        match self {
            Rewriting::Allowed => true,
            Rewriting::Off => false,
        }
    }
}

/// A command that waits for no other thread, with the values of its words.
#[derive(Drop)]
pub enum Task {
    /// `run JOB [--no-relax]`: link the images of the job, run its threads, and print what they did.
    Run {
        /// The name of the job's file.
        job: Text,
        /// `Off` by `--no-relax`.
        rewriting: Rewriting,
    },
    /// `link JOB IMAGE OUT [--no-relax]`: link the images of the job, put one to a file, and print how long it is.
    Link {
        /// The name of the job's file.
        job: Text,
        /// The name of the image in the job.
        image: Text,
        /// The name of the file that the image is put to.
        out: Text,
        /// `Off` by `--no-relax`.
        rewriting: Rewriting,
    },
    /// `sites JOB IMAGE`: print the TLS code sequences of an image, and what stands in the place of each.
    Sites {
        /// The name of the job's file.
        job: Text,
        /// The name of the image in the job.
        image: Text,
    },
    /// `show FILE`: print what an image says.
    Show {
        /// The name of the image's file.
        file: Text,
    },
    /// `check JOB`: print whether the job is clean, or its first step that uses what only a linker can know.
    Check {
        /// The name of the job's file.
        job: Text,
    },
    /// `gen N`: make a job of that many objects and a module in memory, run it, and print a summary.
    Gen {
        /// How many objects, from 1 to 1,000.
        count: u32,
    },
}

/// The command of some words: a task, or the one that runs threads at once.
#[derive(Drop)]
pub enum Command {
    /// A task, which waits for no other thread.
    Plain(Task),
    /// `race JOB [--no-relax]`: link the images of the job, run each of its threads in a thread of its own, and print
    /// what they did.
    Race {
        /// The name of the job's file.
        job: Text,
        /// `Off` by `--no-relax`.
        rewriting: Rewriting,
    },
}

/// Why words are not a command.
#[derive(Clone, Copy, Debug, PartialEq, Eq, Error)]
pub enum WordsFault {
    /// The words are not a command, or they ask for help.
    #[error("usage")]
    Usage,
    /// There was not enough memory to read them.
    #[error("out of memory")]
    OutOfMemory,
}
