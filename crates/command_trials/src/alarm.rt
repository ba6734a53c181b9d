//! Why a run ends early.

ghost use Rattle.std.specs.Prelude.{◌≡◌, is_ok};

use ports::FetchFault;
use std::alloc::AllocError;
use std::io;
use thiserror::Error;

/// Why a run of trials, whose words are as they must be, ends early.
#[derive(Clone, Copy, Debug, Error)]
pub enum Alarm {
    /// Memory ran out.
    #[error("out of memory")]
    OutOfMemory,
    /// A sample could not be read, or is none.
    #[error("a sample can't be read")]
    Sample,
    /// The counts could not be printed.
    #[error("the counts can't be printed")]
    Output,
    /// An answer is otherwise than it must be.
    #[error("{what}")]
    Answer { what: &'static str },
}

/// Why trials end early.
#[derive(Clone, Copy, Debug, Error)]
pub enum Ended {
    /// The words are no count, seed and kinds of inputs.
    #[error("words: COUNT SEED KIND..")]
    Words,
    /// An alarm of the trials.
    #[error("{alarm}")]
    Alarm { alarm: Alarm },
}

impl From<AllocError> for Alarm {
    fn from(_error: AllocError) -> Alarm {
        Alarm::OutOfMemory
    }
}

impl From<FetchFault> for Alarm {
    fn from(_fault: FetchFault) -> Alarm {
        Alarm::Sample
    }
}

impl From<io::Error> for Alarm {
    fn from(_error: io::Error) -> Alarm {
        Alarm::Output
    }
}

/// What an answer must be. The text says what is wrong where it is not.
pub(crate) fn ensure(holds: bool, what: &'static str) -> Result<(), Alarm>
    ensures { is_ok result ≡ holds }
{
    if holds {
        Ok(())
    } else {
        Err(Alarm::Answer { what })
    }
}
