//! The place of a fault.

ghost use Rattle.std.specs.Prelude.{◌≡◌, Some};
ghost use Rattle.link_faults.specs.declared.fault.LinkFault.TheVariants.{At};

use crate::{LinkFault, LinkFaultKind};

/// The place of a relocation or a symbol.
#[derive(Clone, Copy, PartialEq, Eq, Debug)]
pub struct Place {
    /// The object's index in the list.
    pub object: u64,
    /// The section that holds the relocation or the symbol.
    pub section: u64,
    /// Its number there.
    pub entry: u64,
}

impl Place {
    /// The fault of this kind at this place.
    pub fn fault(self, kind: LinkFaultKind) -> LinkFault
        ensures { result ≡ At kind (Some self.object) self.section self.entry }
    {
        LinkFault::At {
            kind,
            object: Some(self.object),
            section: self.section,
            entry: self.entry,
        }
    }
}
