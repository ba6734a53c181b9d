//! The errors of calls to the outside.
ghost use Rattle.std.specs.Prelude.{◌≡◌};
ghost use Rattle.std.specs.IoError.{error_kind};
ghost use Rattle.ports.specs.declared.faults.FetchFault.TheVariants as fetch;
ghost use Rattle.ports.specs.declared.faults.PutFault.TheVariants as put;
ghost use Rattle.ports.specs.Errors.{fetch_fault, put_fault};

use std::alloc::AllocError;
use std::io;
use thiserror::Error;

/// Why a store did not give a file.
#[derive(Clone, Copy, Debug, PartialEq, Eq, Error)]
pub enum FetchFault {
    /// The store failed, and counted the failure. A name without a file is such a failure.
    #[error("store fault")]
    Failed,
    /// There was not enough memory for the file's bytes.
    #[error("out of memory")]
    OutOfMemory,
}

/// Why a store or a sink did not take the bytes that it was given.
#[derive(Clone, Copy, Debug, PartialEq, Eq, Error)]
pub enum PutFault {
    /// The store or the sink failed, and counted the failure.
    #[error("store or sink fault")]
    Failed,
    /// There was not enough memory for the bytes.
    #[error("out of memory")]
    OutOfMemory,
}

impl From<AllocError> for FetchFault {
    ghost from_gives = { λ _ fault. fault ≡ fetch.OutOfMemory };

    fn from(_error: AllocError) -> FetchFault {
        FetchFault::OutOfMemory
    }
}

impl From<AllocError> for PutFault {
    ghost from_gives = { λ _ fault. fault ≡ put.OutOfMemory };

    fn from(_error: AllocError) -> PutFault {
        PutFault::OutOfMemory
    }
}

impl From<io::Error> for FetchFault {
    ghost from_gives = { λ error fault. fault ≡ fetch_fault (error_kind error) };

    fn from(error: io::Error) -> FetchFault {
        match error.kind() {
            io::ErrorKind::OutOfMemory => FetchFault::OutOfMemory,
            _ => FetchFault::Failed,
        }
    }
}

impl From<io::Error> for PutFault {
    ghost from_gives = { λ error fault. fault ≡ put_fault (error_kind error) };

    fn from(error: io::Error) -> PutFault {
        match error.kind() {
            io::ErrorKind::OutOfMemory => PutFault::OutOfMemory,
            _ => PutFault::Failed,
        }
    }
}
