//! Reading the displacement and the immediate of an instruction.

ghost use Rattle.std.specs.Prelude.{◌≡◌};
ghost use Rattle.amd64_subset.specs.Reading.{Gives, numbers_at};

use crate::fault::Fault;
use amd64_words::Size;

/// A displacement and an immediate (or a distance), sign-extended.
#[derive(Clone, Copy)]
pub struct Numbers {
    pub displacement: u64,
    pub immediate: u64,
}

/// Reads a displacement and an immediate of these sizes.
#[tactic(auto, unfolding(crate::specs::Reading::numbers_at))]
pub(crate) fn read_numbers(
    displacement: Size,
    immediate: Size,
    bytes: &[u8],
) -> Result<(Numbers, &[u8]), Fault>
    ensures { Gives (λ x. (x.0, x.1.now)) result (numbers_at displacement immediate bytes.now) }
{
    let size = displacement.count() + immediate.count();
    if bytes.len() < size as usize {
        return Err(Fault::Short(size - bytes.len() as u8));
    }
    let (first, rest) = bytes.split_at(displacement.count() as usize);
    let (second, rest) = rest.split_at(immediate.count() as usize);
    let numbers = Numbers {
        displacement: displacement.signed(first),
        immediate: immediate.signed(second),
    };
    Ok((numbers, rest))
}
