//! The effect of an instruction: a number, and changes of flags.

ghost use Rattle.std.specs.Prelude.{◌≡◌};
ghost use Rattle.guest_arithmetic.specs.Arithmetic.{by_result, each_flag};

use crate::arithmetic::is_negative;
use amd64_subset::Width;

/// What an instruction does to one flag.
#[derive(Clone, Copy, Debug)]
pub enum Change {
    Set(bool),
    /// The manual leaves the flag undefined.
    Unsettled,
    Kept,
}

/// What an instruction does to the flags.
#[derive(Clone, Copy, Debug)]
pub struct Changes {
    pub zero: Change,
    pub sign: Change,
    pub carry: Change,
    pub overflow: Change,
}

/// A result and the changes of the flags.
#[derive(Clone, Copy, Debug)]
pub struct Effect {
    pub number: u64,
    pub changes: Changes,
}

impl Changes {
    /// Each flag changes in this way.
    pub fn each(change: Change) -> Changes
        ensures { result ≡ each_flag change }
    {
        Changes {
            zero: change,
            sign: change,
            carry: change,
            overflow: change,
        }
    }
}

/// A result, which sets ZF and SF.
pub(crate) fn by_result(width: Width, number: u64, carry: Change, overflow: Change) -> Effect
    ensures { result ≡ by_result width number carry overflow }
{
    Effect {
        number,
        changes: Changes {
            zero: Change::Set(number == 0),
            sign: Change::Set(is_negative(width, number)),
            carry,
            overflow,
        },
    }
}
