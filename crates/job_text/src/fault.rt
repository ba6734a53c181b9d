//! What can be wrong with a job, and where.

ghost use Rattle.std.specs.Prelude.{◌≡◌, Some};
ghost use Rattle.job_text.specs.declared.fault.JobFault.TheVariants.{OutOfMemory as NoMemory};
ghost use Rattle.job_text.specs.Kinds.{kind_text};

use std::alloc::{AllocError, AllocFailed};
use std::fmt;
use thiserror::Error;

/// The kinds of faults of a job, in the order in which a line is checked for them.
#[derive(Clone, Copy, PartialEq, Eq, Debug)]
pub enum JobFaultKind {
    /// A byte that is not a printable ASCII character.
    NotText,
    /// The first word begins no line, or the kind of an image or the verb of a thread is unknown.
    Word,
    /// Too few or too many words, a 65th image, or a line past the 65,536th.
    Count,
    /// A number that is malformed or out of its range.
    Number,
    /// A name that is malformed or too long, or an image that no earlier line declares.
    Name,
    /// A second image of one name, a second program, or a second `threads`, `fuel` or `order`.
    Twice,
    /// The job declares no program; this one stands at line 0.
    NoExe,
}

impl fmt::Display for JobFaultKind {
    ghost output = { λ kind. Some (kind_text kind) };

    fn fmt<W: fmt::Write>(&self, f: &mut fmt::Formatter<W>) -> fmt::Result {
        match self {
            JobFaultKind::NotText => write!(f, "NotText"),
            JobFaultKind::Word => write!(f, "Word"),
            JobFaultKind::Count => write!(f, "Count"),
            JobFaultKind::Number => write!(f, "Number"),
            JobFaultKind::Name => write!(f, "Name"),
            JobFaultKind::Twice => write!(f, "Twice"),
            JobFaultKind::NoExe => write!(f, "NoExe"),
        }
    }
}

/// Why a text is not a job: its first fault, or memory ran out.
#[derive(Debug, Drop, Error)]
pub enum JobFault {
    #[error("out of memory")]
    OutOfMemory,
    /// The line, counted from 1, and what is wrong with it.
    #[error("line {line}: {kind}")]
    At { line: u64, kind: JobFaultKind },
}

impl From<AllocError> for JobFault {
    ghost from_gives = { λ _ fault. fault ≡ NoMemory };

    fn from(_error: AllocError) -> JobFault {
        JobFault::OutOfMemory
    }
}

impl<T: Drop> From<AllocFailed<T>> for JobFault {
    ghost from_gives = { λ _ fault. fault ≡ NoMemory };

    fn from(_error: AllocFailed<T>) -> JobFault {
        JobFault::OutOfMemory
    }
}

/// What is wrong with one line, before its number is known.
#[derive(Drop)]
pub(crate) enum Flaw {
    OutOfMemory,
    Kind(JobFaultKind),
}

impl Flaw {
    ghost use Rattle.std.specs.Prelude.{◌≡◌};
    ghost use Rattle.job_text.specs.Flaws.{fault_at};

    /// The fault of the job, with the number of the line.
    pub(crate) fn at(self, line: u64) -> JobFault
        ensures { result ≡ fault_at line self }
    {
        match self {
            Flaw::OutOfMemory => JobFault::OutOfMemory,
            Flaw::Kind(kind) => JobFault::At { line, kind },
        }
    }
}

impl From<AllocError> for Flaw {
    ghost use Rattle.std.specs.Prelude.{◌≡◌};
    ghost use Rattle.job_text.specs.declared.fault.Flaw.TheVariants.{OutOfMemory as NoRoom};

    ghost from_gives = { λ _ flaw. flaw ≡ NoRoom };

    fn from(_error: AllocError) -> Flaw {
        Flaw::OutOfMemory
    }
}

impl<T: Drop> From<AllocFailed<T>> for Flaw {
    ghost use Rattle.std.specs.Prelude.{◌≡◌};
    ghost use Rattle.job_text.specs.declared.fault.Flaw.TheVariants.{OutOfMemory as NoRoom};

    ghost from_gives = { λ _ flaw. flaw ≡ NoRoom };

    fn from(_error: AllocFailed<T>) -> Flaw {
        Flaw::OutOfMemory
    }
}
