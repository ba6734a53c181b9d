//! Changes that any file may have: of its length, or of any byte.

ghost use Rattle.std.specs.Prelude.{◌≡◌, ◌+◌, ◌≤◌, length};
ghost use Rattle.input_changes.specs.Differing.{differing};

use crate::fields::set_byte;
use crate::numbers::other_byte;
use job_changes::Generator;
use std::alloc::AllocError;

/// Changes the byte at a place, if the file goes so far.
#[tactic(auto, using(crate::proofs::Differing::differing_self, crate::proofs::Differing::differing_set))]
pub(crate) fn change_byte(generator: &mut Generator, bytes: &mut [u8], place: u64) -> Option<()>
    ensures { differing bytes.old bytes.new ≤ 1 }
{
    let old = *bytes.get(place as usize)?;
    set_byte(bytes, place, other_byte(generator, old));
    Some(())
}

/// Changes any byte.
pub(crate) fn change_any_byte(generator: &mut Generator, bytes: &mut [u8]) -> Option<()>
    ensures { differing bytes.old bytes.new ≤ 1 }
{
    let place = generator.below(bytes.len() as u64);
    change_byte(generator, bytes, place)
}

/// Cuts a file somewhere, or its last bytes.
#[tactic(auto, using(crate::proofs::Differing::differing_take))]
fn cut(generator: &mut Generator, bytes: &mut Vec<u8>)
    ensures kept { differing bytes.old.items bytes.new.items ≡ 0 }
    ensures shorter { length bytes.new.items ≤ length bytes.old.items }
{
    let length = bytes.len() as u64;
    let dropped = if generator.is_one_in(2) {
        generator.below(length)
    } else {
        generator.below(32)
    };
    bytes.truncate(length.saturating_sub(dropped) as usize);
}

/// Adds bytes behind a file.
#[tactic(auto, using(crate::proofs::Differing::differing_self, crate::proofs::Differing::differing_append))]
fn extend(generator: &mut Generator, bytes: &mut Vec<u8>) -> Result<(), AllocError>
    ensures kept { differing bytes.old.items bytes.new.items ≡ 0 }
    ensures longer { length bytes.new.items ≤ length bytes.old.items + 63 }
{
    for _ in 0..generator.below(64) {
        bytes.push(generator.below(2) as u8)?;
    }
    Ok(())
}

/// Makes a file shorter or longer.
pub(crate) fn change_length(
    generator: &mut Generator,
    bytes: &mut Vec<u8>,
) -> Result<(), AllocError>
    ensures kept { differing bytes.old.items bytes.new.items ≡ 0 }
    ensures longer { length bytes.new.items ≤ length bytes.old.items + 63 }
{
    if generator.is_one_in(3) {
        return extend(generator, bytes);
    }
    cut(generator, bytes);
    Ok(())
}
