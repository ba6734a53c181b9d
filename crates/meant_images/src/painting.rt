//! Writes the cell of each byte of a section of code.

ghost use Rattle.std.specs.Prelude.{◌≡◌, ◌+◌, ◌<◌, ◌≤◌, ◌^◌, ℕ, IfOk, length, slice_index_or, if◌then◌else◌};
ghost use Rattle.std.specs.List.{All};
ghost use Rattle.std.specs.List.Sorted.{IsNonDecreasingBy};
ghost use Rattle.elf_object.specs.Lent.{section_size};
ghost use Rattle.elf_object.specs.Object.{section_count};
ghost use Rattle.elf_records.specs.Relocations.{field_width};
ghost use Rattle.meant_images.specs.CodeCells.{HaveRoom, IsSplit, cell_from, code_cell, field_cell, is_within};
ghost use Rattle.meant_images.specs.CodeCells.{no_cell, site_cell};
ghost use Rattle.memory_image.specs.Laying.{IsOfClass, section_cells};
ghost use Rattle.object_faults.specs.declared.class.SectionClass.TheVariants.{Executable};
ghost use Rattle.sequence_forms.specs.declared.places.Site.{Site};

use crate::kept::{KeptObject, own_sites, relocations_of};
use elf_object::{Object, Relocation};
use link_needs::Inputs;
use memory_image::Cells;
use sequence_match::Site;
use std::alloc::{AllocError, Global};

/// A byte of code: the number of the entry that it belongs to, and which byte of the entry it is, from 0.
#[derive(Clone, Copy)]
pub struct Cell {
    pub entry: u32,
    pub byte: u8,
}

/// A byte that no field and no sequence covers. It belongs to the first entry.
const NO_CELL: Cell = Cell { entry: 0, byte: 0 };

/// Writes the cells of an entry, over `width` bytes from `start`.
fn paint(entry: u32, start: usize, width: usize, cells: &mut [Cell])
    requires inside { start + width ≤ length cells.old }
    requires narrow { width ≤ 256 }
    ensures { (k : ℕ) → k < length cells.old → slice_index_or cells.new k no_cell
        ≡ (if is_within start width k then cell_from entry start k else slice_index_or cells.old k no_cell) }
{
    for byte in 0..width {
        cells[start + byte] = Cell {
            entry,
            byte: byte as u8,
        };
    }
}

/// Writes the cells of a section's fields. The first field's entry has number `first`. A byte that two fields share
/// belongs to the first, so the last is written first.
fn paint_fields(relocations: &[Relocation], first: usize, cells: &mut [Cell])
    requires inside { All (λ (r : Relocation). r.offset + field_width r.kind ≤ length cells.old) relocations.now }
    requires few { first + length relocations.now ≤ 2 ^ 32 }
    ensures { (k : ℕ) → k < length cells.old → slice_index_or cells.new k no_cell
        ≡ field_cell first relocations.now k (slice_index_or cells.old k no_cell) }
{
    let mut left = relocations.len();
    while left > 0 {
        left -= 1;
        let relocation = relocations[left];
        let entry = (first + left) as u32;
        paint(
            entry,
            relocation.offset as usize,
            relocation.kind.width() as usize,
            cells,
        );
    }
}

/// Writes the cells of the sequences in a section. The first sequence's entry has number `first`.
fn paint_sites(sites: &[Site], first: usize, section: u32, cells: &mut [Cell])
    requires own { All (λ (site : Site). site.section ≡ section) sites.now }
    requires inside { All (λ (site : Site). site.start + site.len ≤ length cells.old) sites.now }
    requires narrow { All (λ (site : Site). site.len ≤ 256) sites.now }
    requires few { first + length sites.now ≤ 2 ^ 32 }
    ensures { (k : ℕ) → k < length cells.old → slice_index_or cells.new k no_cell
        ≡ site_cell first sites.now section k (slice_index_or cells.old k no_cell) }
{
    let mut left = sites.len();
    while left > 0 {
        left -= 1;
        let site = sites[left];
        let entry = (first + left) as u32;
        paint(entry, site.start as usize, site.len as usize, cells);
    }
}

/// How many of these sequences are in sections with lower numbers.
fn sites_below(sites: &[Site], section: u32) -> usize
    requires rising { IsNonDecreasingBy (λ (site : Site). site.section) sites.now }
    ensures { IsSplit sites.now section result }
{
    sites.partition_point(|site| site.section < section)
}

/// Writes the cells of those sequences of an object that are in a section.
fn paint_own_sites(sites: &[Site], first: usize, section: u32, cells: &mut [Cell])
    requires rising { IsNonDecreasingBy (λ (site : Site). site.section) sites.now }
    requires inside { All (λ (site : Site). site.section ≡ section → site.start + site.len ≤ length cells.old)
        sites.now }
    requires narrow { All (λ (site : Site). site.len ≤ 256) sites.now }
    requires few { first + length sites.now ≤ 2 ^ 32 }
    requires small { section < 2 ^ 16 }
    ensures { (k : ℕ) → k < length cells.old → slice_index_or cells.new k no_cell
        ≡ site_cell first sites.now section k (slice_index_or cells.old k no_cell) }
{
    let begin = sites_below(sites, section);
    let rest = &sites[begin..];
    let count = sites_below(rest, section + 1);
    paint_sites(&rest[..count], first + begin, section, cells);
}

/// Writes the cells of an image's code.
#[derive(Drop)]
pub struct Painter<'p, 'l, 's, 'a> {
    pub alloc: Global,
    pub inputs: &'p Inputs<'l, 's, 'a>,
    /// For each object, where its entries are.
    pub objects: &'p [KeptObject],
    ghost have_room: { HaveRoom inputs.now objects.now },
}

/// The size of a section.
fn size_of(object: &Object, section: u32) -> u64
    requires { section < section_count object.now }
    ensures size { result ≡ section_size object.now section }
    ensures few { section < 2 ^ 16 }
{
    let count = object.section_count();
    match object.section(section) {
        Some(part) if section < count => part.size,
        _ => 0,
    }
}

impl Painter<'_, '_, '_, '_> {
    /// The cells of a section.
    fn section_cells(&self, object: usize, section: u32) -> Result<Vec<Cell>, AllocError>
        requires { IsOfClass self.now.inputs.now Executable object section }
        ensures { IfOk result (λ cells. cells.items
            ≡ section_cells (code_cell self.now.objects.now self.now.inputs.now) self.now.inputs.now object section) }
    {
        let own = self.inputs.object(object);
        let kept = &self.objects[object];
        let size = size_of(own, section);
        let relocations = relocations_of(self.alloc, own, section)?;
        let mut cells = vec![in self.alloc; NO_CELL; size as usize]?;
        paint_fields(&relocations, kept.fields[section as usize], &mut cells);
        paint_own_sites(
            own_sites(self.inputs, object),
            kept.sites,
            section,
            &mut cells,
        );
        Ok(cells)
    }
}

impl<'p, 'l, 's, 'a> Cells for Painter<'p, 'l, 's, 'a> {
    ghost use Rattle.object_faults.specs.declared.class.SectionClass.TheVariants.{Executable};
    ghost use Rattle.meant_images.specs.CodeCells.{code_cell, no_cell};

    type Cell = Cell;

    ghost linking = { λ p. p.inputs.now };

    ghost of_class = { λ p. Executable };

    ghost cell = { λ p. code_cell p.objects.now p.inputs.now };

    ghost gap_cell = { λ p. no_cell };

    fn gap(&self) -> Cell {
        NO_CELL
    }

    fn push_section(
        &self,
        object: usize,
        section: u32,
        table: &mut Vec<Cell>,
    ) -> Result<(), AllocError> {
        let cells = self.section_cells(object, section)?;
        table.extend_from_slice(&cells)
    }
}
