//! The sections of all objects, one after another.

ghost use Rattle.std.specs.Prelude.{◌≡◌, ◌++◌, ◌<◌, All, IfOk, OnOk, length, sum};
ghost use Rattle.elf_object.specs.Object.{section_count as count_of_sections};
ghost use Rattle.tls_layout.specs.Sections.{position as position_of, section_at, section_of, sections_of, IsOrdinary};
ghost use Rattle.tls_layout.specs.Passes.{AreFirsts};
ghost use Rattle.tls_layout.specs.Lists.{IsListOf};

use crate::sections::Section;
use elf_object::{Object, SectionClass};
use std::alloc::{AllocError, Global};

/// All sections, in order of objects and then by number.
#[derive(Drop)]
pub struct SectionList {
    pub sections: Vec<Section>,
    /// How many sections each object has.
    pub counts: Vec<u32>,
    /// The index at which the sections of each object begin.
    pub firsts: Vec<usize>,
}

impl SectionList {
    /// The index of a section among all.
    #[tactic(auto, unfolding(crate::specs::Sections::position), using(crate::proofs::Found::fits_before))]
    pub fn position(&self, object: usize, section: u32) -> Option<usize>
        requires firsts { AreFirsts self.now.counts.items self.now.firsts.items }
        requires total { sum self.now.counts.items ≡ length self.now.sections.items }
        ensures { result ≡ position_of self.now.counts.items object section }
    {
        let count = *self.counts.get(object)?;
        if count <= section {
            return None;
        }
        Some(self.firsts[object] + section as usize)
    }

    /// The class of the section at an index; `None` past the last one.
    pub fn class_at(&self, index: usize) -> Option<SectionClass>
        ensures { result ≡ (section_at self.now.sections.items index).class }
    {
        self.sections.get(index)?.class
    }
}

/// A section of an object.
#[tactic(auto, unfolding(crate::specs::Sections::section_of))]
fn section_in(object: &Object, number: u32) -> Section
    requires { number < count_of_sections object.now }
    ensures { result ≡ section_of object.now number }
{
    match object.section(number) {
        Some(part) => Section::seen(&part),
        None => unreachable!(),
    }
}

/// Adds the sections of an object.
fn push_sections(object: &Object, sections: &mut Vec<Section>) -> Result<(), AllocError>
    ensures pushed { OnOk result (sections.new.items ≡ sections.old.items ++ sections_of object.now) }
    ensures ordinary { All IsOrdinary (sections_of object.now) }
{
    for number in 0..object.section_count() {
        sections.push(section_in(object, number))?;
    }
    Ok(())
}

/// The sections of objects.
pub fn list_sections(alloc: Global, objects: &[Object]) -> Result<SectionList, AllocError>
    ensures { IfOk result (IsListOf objects.now) }
{
    let mut sections = Vec::new(alloc);
    let mut counts = Vec::new(alloc);
    let mut firsts = Vec::new(alloc);
    for object in objects {
        firsts.push(sections.len())?;
        counts.push(object.section_count())?;
        push_sections(object, &mut sections)?;
    }
    Ok(SectionList {
        sections,
        counts,
        firsts,
    })
}
