//! Uses and accesses by the instruction at an address.

ghost use Rattle.std.specs.Prelude.{◌≡◌};
ghost use Rattle.guest_operands.specs.Access.{bytes_in, load_of, store_of};
ghost use Rattle.guest_operands.specs.RangeLaws.{range_accesses};
ghost use Rattle.guest_operands.specs.Use.{clean, there};
ghost use Rattle.guest_operands.specs.UseLaws.{LeavesMemory};

use crate::space::{Size, Space};
use crate::stop::Stop;
use guest_arithmetic::{Cause, Values};

/// The answer of a use, with a cause made a stop of the instruction at `here`.
pub fn used<A: Copy>(here: u64, answer: Result<A, Cause>) -> Result<A, Stop>
    ensures { result ≡ clean here answer }
{
    match answer {
        Ok(value) => Ok(value),
        Err(cause) => Err(Stop::Unclean(here, cause)),
    }
}

/// A load by the instruction at `here`.
pub fn load<V: Values, S: Space<V>>(
    space: &S,
    here: u64,
    address: u64,
    size: Size,
) -> Result<V::Word, Stop>
    ensures { result ≡ there here
        (load_of V.operations (range_accesses V.operations) (S.memory space.now) address (bytes_in size)) }
{
    match space.load(address, size) {
        Some(word) => Ok(word),
        None => Err(Stop::Address(here)),
    }
}

/// A store by the instruction at `here`.
pub fn store<V: Values, S: Space<V>>(
    space: &mut S,
    here: u64,
    address: u64,
    size: Size,
    word: V::Word,
) -> Result<(), Stop>
    ensures leaves { LeavesMemory result (S.memory space.old) (S.memory space.new) (there here
        (store_of V.operations (range_accesses V.operations) (S.memory space.old) address (bytes_in size) word)) }
    ensures rest { S.rest space.new ≡ S.rest space.old }
{
    if space.store(address, size, word) {
        return Ok(());
    }
    Err(Stop::Address(here))
}
