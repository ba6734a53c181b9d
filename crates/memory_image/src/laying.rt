//! Tables of cells: one cell for each byte of a class of sections, in the order of addresses.

ghost use Rattle.std.specs.Prelude.{◌≡◌, ◌++◌, ◌+◌, ◌-◌, ◌<◌, ◌≤◌, ◌^◌, ℕ, All, OnOk, IfOk, length, replicate};
ghost use Rattle.elf_object.specs.Faults.{IsObject};
ghost use Rattle.elf_object.specs.Object.{section_count};
ghost use Rattle.link_needs.specs.Linking.{Linking, layout, object};
ghost use Rattle.memory_image.specs.Laying.{HasRange, IsOfClass, class_cells, laid_before, section_cells};
ghost use Rattle.object_faults.specs.declared.class.SectionClass.{SectionClass};
ghost use Rattle.tls_layout.specs.Places.{extent_for};

use elf_object::SectionClass;
use link_needs::Inputs;
use std::alloc::{AllocError, Global};
use tls_layout::{Extent, is_class};

/// What a table holds for the bytes of a link's sections of one class.
pub trait Cells {
    type Cell: Copy;

    // the link, and the class
    ghost linking: { Self → Linking };

    ghost of_class: { Self → SectionClass };

    // the cell of a byte, by object, section and offset in the section
    ghost cell: { Self → ℕ → ℕ → ℕ → Self.Cell };

    // the cell of an address in no section
    ghost gap_cell: { Self → Self.Cell };

    /// The cell of an address in no section.
    fn gap(&self) -> Self::Cell
        ensures { result ≡ gap_cell self.now };

    /// Adds the cells of a section to a table, one for each byte that it has in memory.
    fn push_section(
        &self,
        object: usize,
        section: u32,
        table: &mut Vec<Self::Cell>,
    ) -> Result<(), AllocError>
        requires { IsOfClass (linking self.now) (of_class self.now) object section }
        ensures { OnOk result (table.new.items
            ≡ table.old.items ++ section_cells (cell self.now) (linking self.now) object section) };
}

/// The address range of a class's sections, in a link.
#[tactic(auto, using(crate::proofs::Laid::extent_low, crate::proofs::Laid::extent_rises))]
pub fn class_extent(inputs: &Inputs, class: SectionClass) -> Extent
    ensures extent { result ≡ extent_for class (layout inputs.now) }
    ensures rises { result.start ≤ result.end }
    ensures low { result.end ≤ 2 ^ 25 }
    ensures objects { All IsObject inputs.now.objects }
{
    inputs.placement.extent(class)
}

/// Fills a table with gaps up to a length, unless it is that long.
fn pad<C: Cells>(cells: &C, len: u64, table: &mut Vec<C::Cell>) -> Result<(), AllocError>
    requires { len ≤ 2 ^ 26 }
    ensures { OnOk result (table.new.items
        ≡ table.old.items ++ replicate (len - length table.old.items) (C.gap_cell cells.now)) }
{
    let len = len as usize;
    if table.len() < len {
        table.resize(len, cells.gap())?;
    }
    Ok(())
}

/// Lays out a section after those before it, if it is in the class.
fn lay_section<C: Cells>(
    inputs: &Inputs,
    class: SectionClass,
    cells: &C,
    number: usize,
    section: u32,
    table: &mut Vec<C::Cell>,
) -> Result<(), AllocError>
    requires linking { C.linking cells.now ≡ inputs.now }
    requires class { C.of_class cells.now ≡ class }
    requires range { HasRange class }
    requires object { number < length inputs.now.objects }
    requires section { section < section_count (object inputs.now number) }
    requires before { table.old.items
        ≡ laid_before (C.cell cells.now) inputs.now class (C.gap_cell cells.now) number section }
    ensures { OnOk result (table.new.items
        ≡ laid_before (C.cell cells.now) inputs.now class (C.gap_cell cells.now) number (section + 1)) }
{
    let Some(part) = inputs.object(number).section(section) else {
        return Ok(());
    };
    if !is_class(class, part.class) {
        return Ok(());
    }
    let start = class_extent(inputs, class).start;
    let begin = inputs.section_address(number, section);
    pad(cells, begin.saturating_sub(start), table)?;
    cells.push_section(number, section, table)?;
    Ok(())
}

/// Lays out the sections of an object.
#[tactic(auto, using(crate::proofs::Laid::object_laid))]
fn lay_object<C: Cells>(
    inputs: &Inputs,
    class: SectionClass,
    cells: &C,
    number: usize,
    table: &mut Vec<C::Cell>,
) -> Result<(), AllocError>
    requires linking { C.linking cells.now ≡ inputs.now }
    requires class { C.of_class cells.now ≡ class }
    requires range { HasRange class }
    requires object { number < length inputs.now.objects }
    requires before { table.old.items
        ≡ laid_before (C.cell cells.now) inputs.now class (C.gap_cell cells.now) number 0 }
    ensures { OnOk result (table.new.items
        ≡ laid_before (C.cell cells.now) inputs.now class (C.gap_cell cells.now) (number + 1) 0) }
{
    let count = inputs.object(number).section_count();
    for section in 0..count {
        lay_section(inputs, class, cells, number, section, table)?;
    }
    Ok(())
}

/// The cells of a class, from its first address to its last: those of each section at its address, and gaps between.
#[tactic(auto, using(crate::proofs::Laid::none_laid, crate::proofs::Laid::class_laid))]
pub fn lay<C: Cells>(
    alloc: Global,
    inputs: &Inputs,
    class: SectionClass,
    cells: &C,
) -> Result<Vec<C::Cell>, AllocError>
    requires linking { C.linking cells.now ≡ inputs.now }
    requires class { C.of_class cells.now ≡ class }
    requires range { HasRange class }
    ensures { IfOk result (λ table. table.items
        ≡ class_cells (C.cell cells.now) inputs.now class (C.gap_cell cells.now)) }
{
    let extent = class_extent(inputs, class);
    let len = extent.end - extent.start;
    let mut table = Vec::with_capacity(alloc, len as usize)?;
    let count = inputs.objects.len();
    for number in 0..count {
        lay_object(inputs, class, cells, number, &mut table)?;
    }
    pad(cells, len, &mut table)?;
    Ok(table)
}
