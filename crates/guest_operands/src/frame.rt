//! The surroundings of an instruction's operation: the next address and the offset fields.

ghost use Rattle.std.specs.Prelude.{◌≡◌};
ghost use Rattle.guest_operands.specs.RangeLaws.{is_field_of};
ghost use Rattle.guest_operands.specs.Frame.{frame_of, field_at};

use crate::space::Space;
use amd64_subset::Decoded;
use guest_arithmetic::Values;

/// The parts of an instruction besides its operation: the next address, the numbers and their fields.
#[derive(Clone, Copy, Debug)]
pub struct Frame {
    /// The address of the next instruction.
    pub next: u64,
    pub displacement: u64,
    pub immediate: u64,
    /// The displacement's address, if it is an offset field.
    pub displacement_field: Option<u64>,
    /// The immediate's address, if it is an offset field.
    pub immediate_field: Option<u64>,
}

/// The address of a part of an instruction, if an offset field begins there.
fn field<V: Values, S: Space<V>>(space: &S, here: u64, within: Option<u8>) -> Option<u64>
    ensures { result ≡ field_at (is_field_of (S.memory space.now)) here within }
{
    let within = within?;
    let place = here.wrapping_add(u64::from(within));
    if space.is_field(place) {
        return Some(place);
    }
    None
}

#[tactic(auto, unfolding(crate::specs::Frame::frame_of))]
pub fn frame_at<V: Values, S: Space<V>>(space: &S, here: u64, decoded: &Decoded) -> Frame
    ensures { result ≡ frame_of (is_field_of (S.memory space.now)) here decoded.now }
{
    Frame {
        next: here.wrapping_add(u64::from(decoded.len)),
        displacement: decoded.instr.displacement,
        immediate: decoded.instr.immediate,
        displacement_field: field::<V, S>(space, here, decoded.disp),
        immediate_field: field::<V, S>(space, here, decoded.imm),
    }
}
