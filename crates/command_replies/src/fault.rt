//! Why a command gives no output.
ghost use Rattle.std.specs.Prelude.{◌≡◌};

use crate::replies::Reply;
use ports::{FetchFault, PutFault};
use std::alloc::{AllocError, AllocFailed};

/// Why a command gives no output.
#[derive(Drop)]
pub enum CommandFault {
    /// The store failed.
    Store,
    /// Memory ran out.
    OutOfMemory,
    /// The input is refused: a status, and the line that says what, and why.
    Refused(Reply),
}

impl From<FetchFault> for CommandFault {
    ghost use Rattle.command_replies.specs.FetchFaults.{fault_of_fetch};

    ghost from_gives = { λ fetch fault. fault ≡ fault_of_fetch fetch };

    fn from(fault: FetchFault) -> CommandFault {
        match fault {
            FetchFault::Failed => CommandFault::Store,
            FetchFault::OutOfMemory => CommandFault::OutOfMemory,
        }
    }
}

impl From<PutFault> for CommandFault {
    ghost use Rattle.command_replies.specs.FetchFaults.{fault_of_put};

    ghost from_gives = { λ put fault. fault ≡ fault_of_put put };

    fn from(fault: PutFault) -> CommandFault {
        match fault {
            PutFault::Failed => CommandFault::Store,
            PutFault::OutOfMemory => CommandFault::OutOfMemory,
        }
    }
}

impl From<AllocError> for CommandFault {
    ghost use Rattle.command_replies.specs.declared.fault.CommandFault.TheVariants.{OutOfMemory};

    ghost from_gives = { λ _ fault. fault ≡ OutOfMemory };

    fn from(_error: AllocError) -> CommandFault {
        CommandFault::OutOfMemory
    }
}

impl<T: Drop> From<AllocFailed<T>> for CommandFault {
    ghost use Rattle.command_replies.specs.declared.fault.CommandFault.TheVariants.{OutOfMemory};

    ghost from_gives = { λ _ fault. fault ≡ OutOfMemory };

    fn from(_error: AllocFailed<T>) -> CommandFault {
        CommandFault::OutOfMemory
    }
}
