//! Whether objects may have data that programs write.

ghost use Rattle.std.specs.Prelude.{MatchOption};
ghost use Rattle.job_link.specs.Given.{Allows, IsDataFaultOf};

use elf_object::{FaultKind, Object, ObjectFault};

/// Whether sections that programs write, and that have bytes, are allowed.
#[derive(Clone, Copy)]
pub enum WritableSections {
    /// They are kept, like all others.
    Kept,
    /// An object that has one is refused: threads that run at once would all write the same bytes.
    Refused,
}

impl WritableSections {
    /// The fault of an object with such a section, if they are refused: the lowest one.
    pub(crate) fn fault(self, object: &Object) -> Option<ObjectFault>
        ensures { MatchOption result (Allows self object.now) (IsDataFaultOf self object.now) }
    {
        match self {
            WritableSections::Kept => None,
            WritableSections::Refused => lowest_writable(object),
        }
    }
}

/// The fault for the object's lowest section that programs write.
fn lowest_writable(object: &Object) -> Option<ObjectFault>
    ensures { MatchOption result (Allows WritableSections.Refused object.now)
        (IsDataFaultOf WritableSections.Refused object.now) }
{
    match object.writable() {
        None => None,
        Some(section) => Some(ObjectFault::At {
            section: u64::from(section),
            entry: 0,
            kind: FaultKind::WritableData,
        }),
    }
}
