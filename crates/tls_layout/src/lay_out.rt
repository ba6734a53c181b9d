//! One pass over the sections: the places of one class.

ghost use Rattle.std.specs.Prelude.{◌≡◌, ◌+◌, ◌<◌, ◌≤◌, ◌^◌, All, IfOk, IfErr, OnOk, Some, None, length};
ghost use Rattle.std.specs.Prelude.{if◌then◌else◌};
ghost use Rattle.tls_layout.specs.Rounding.{round_up as rounded_up};
ghost use Rattle.tls_layout.specs.Sections.{is_in, IsOrdinary};
ghost use Rattle.tls_layout.specs.Places.{next_end, end_of, extent_of};
ghost use Rattle.tls_layout.specs.Passes.{GivesPlaces};
ghost use Rattle.tls_layout.specs.Faults.{IsWhole};

use crate::extent::{Extent, round_up};
use crate::sections::Section;
use elf_object::SectionClass;
use link_faults::{LinkFault, LinkFaultKind};

/// The last place where sections may end, and the fault if they end after it.
#[derive(Clone, Copy)]
pub struct Limit {
    pub end: u64,
    pub kind: LinkFaultKind,
}

impl Limit {
    /// The fault for exceeding the limit. It is at no object.
    fn fault(self) -> LinkFault
        ensures { IsWhole self.kind result }
    {
        LinkFault::At {
            kind: self.kind,
            object: None,
            section: 0,
            entry: 0,
        }
    }
}

/// Gives a section its place, if it is of the class. Returns where the sections so far end.
#[tactic(auto, using(crate::proofs::Rounds::power_bounds))]
fn give_place(section: &Section, class: SectionClass, end: u64, place: &mut Option<u64>) -> u64
    requires ordinary { IsOrdinary section.now }
    requires low { end ≤ 2 ^ 32 }
    ensures end { result ≡ next_end class end section.now }
    ensures place { place.new
        ≡ (if is_in class section.now then Some (rounded_up end section.now.alignment) else place.old) }
{
    if !section.is_in(class) {
        return end;
    }
    let start = round_up(end, section.alignment);
    *place = Some(start);
    start + section.size
}

/// Gives each section of a class its place, the first one at or after `from`, in their order.
pub fn lay_out(
    sections: &[Section],
    class: SectionClass,
    from: u64,
    limit: Limit,
    places: &mut [Option<u64>],
) -> Result<Extent, LinkFault>
    requires ordinary { All IsOrdinary sections.now }
    requires len { length places.old ≡ length sections.now }
    requires within { from ≤ limit.end }
    requires low { limit.end ≤ 2 ^ 32 }
    ensures extent { IfOk result (λ extent. (extent ≡ extent_of class from sections.now) × (extent.end ≤ limit.end)) }
    ensures places { OnOk result (GivesPlaces class from sections.now places.old places.new) }
    ensures beyond { IfErr result (λ fault. IsWhole limit.kind fault × (limit.end < end_of class from sections.now)) }
{
    let mut end = from;
    for (index, section) in sections.iter().enumerate() {
        end = give_place(section, class, end, &mut places[index]);
        if limit.end < end {
            return Err(limit.fault());
        }
    }
    Ok(Extent { start: from, end })
}
