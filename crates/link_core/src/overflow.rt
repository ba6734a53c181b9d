//! Finds the first field that can't hold its value, before a byte is written.

ghost use Rattle.std.specs.Prelude.{OnErr, OnOk};
ghost use Rattle.tls_symbols.specs.Walks.{IsUse};
ghost use Rattle.link_tables.specs.Faults.{IsOverflow};
ghost use Rattle.link_tables.specs.FaultLaws.{IsFilled, IsToldOverflow};
ghost use Rattle.link_core.specs.Overflows.{IsOfLink, IsOfSound, Overfills};

use crate::ready::ReadyLink;
use elf_object::{Object, RelocationKind};
use link_faults::{LinkFault, LinkFaultKind};
use link_needs::Plan;
use tls_relocs::Overflow;
use tls_symbols::{Question, Use, first_use};

/// Asks which relocations have a field that can't hold its value.
#[derive(Clone, Copy)]
struct FieldQuestion<'p, 'l, 's, 'a> {
    plan: &'p Plan<'l, 's, 'a>,
}

/// Tests whether the field of a relocation holds its value, if it has a field.
fn ask_field(plan: &Plan, found: &Use) -> Result<(), Overflow>
    requires { IsUse plan.now.objects found.now }
    ensures fits { OnOk result (IsFilled plan.now found.now.place.object found.now.section found.now.relocation) }
    ensures overflow { OnErr result
        (IsOverflow plan.now found.now.place.object found.now.section found.now.relocation) }
{
    let relocation = found.relocation;
    if let RelocationKind::Nothing = relocation.kind {
        return Ok(());
    }
    let inputs = &plan.inputs;
    let object = found.place.object as usize;
    let symbol = plan.symbol_value(object, relocation.symbol);
    if plan.is_replaced(symbol, relocation.kind) {
        return Ok(());
    }
    let place = inputs.section_address(object, found.section) + relocation.offset;
    match plan.field(object, place, &relocation, symbol) {
        Ok(_) => Ok(()),
        Err(unfit) => Err(unfit),
    }
}

impl Question for FieldQuestion<'_, '_, '_, '_> {
    ghost about = { Overfills };

    ghost may_ask = { IsOfLink };

    ghost may_ask_in = { IsOfSound };

    fn may_be_in(&self, _number: usize, object: &Object) -> bool {
        object.traits().is_wide
    }

    fn is_about(&self, found: &Use) -> bool {
        match ask_field(self.plan, found) {
            Ok(()) => false,
            Err(_) => true,
        }
    }
}

impl ReadyLink<'_, '_, '_> {
    /// The first field that can't hold its value, if there is one: only an object with an addend far from zero has one.
    /// No byte of the image is written.
    pub fn overflow(&self) -> Option<LinkFault>
        ensures { IsToldOverflow self.now result }
    {
        let tables = &self.tables;
        let plan = &tables.plan;
        let inputs = &plan.inputs;
        match first_use(&FieldQuestion { plan }, inputs.objects) {
            Some(place) => Some(place.fault(LinkFaultKind::Overflow)),
            None => None,
        }
    }
}
