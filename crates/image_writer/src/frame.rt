//! What stands around the parts of a draft's image, for a file that is made piece by piece.

ghost use Rattle.std.specs.Prelude.{◌≡◌, All, IfOk, OnOk};
ghost use Rattle.image_writer.specs.Frames.{back_of, front_of, outline_told};
ghost use Rattle.image_writer.specs.Loadable.{IsLoadable, HoldsTls};
ghost use Rattle.image_writer.specs.Outlined.{outlined};
ghost use Rattle.image_writer.specs.Page.{page};
ghost use Rattle.image_writer.specs.Told.{told, layout_of, IsRelocationFitting, IsSymbolFitting};

use crate::draft::Draft;
use crate::layout::{Layout, layout_of, next_page, places_end};
use crate::outline::{Outline, PartPlace};
use crate::page::put_page;
use crate::put::grow;
use crate::tables::put_tables;
use elf_records::alignment::PAGE;
use image_file::PartClass;
use std::alloc::{AllocError, Global};

/// What stands before and after the parts of a draft in the file of its image.
pub struct Frame {
    /// The page of headers.
    pub front: Vec<u8>,
    /// Zeros up to the next page, and the dynamic tables.
    pub back: Vec<u8>,
}

/// The parts of a draft, and after them the part of the tables.
fn with_tables(
    alloc: Global,
    draft: &Draft<'_>,
    layout: &Layout,
) -> Result<Vec<PartPlace>, AllocError>
    requires layout { layout.now ≡ layout_of (told draft.now) }
    requires loadable { IsLoadable (outline_told draft.now) }
    ensures { IfOk result (λ all. all.items ≡ (outline_told draft.now).parts) }
{
    let mut all = Vec::with_capacity(alloc, draft.parts.len() + 1)?;
    all.extend_from_slice(draft.parts)?;
    all.push(PartPlace {
        class: PartClass::ReadOnly,
        address: next_page(draft),
        size: layout.size(),
    })?;
    Ok(all)
}

/// What the headers say of the image of a draft, with all its parts.
fn outline_of<'a>(draft: &Draft<'_>, layout: &Layout, parts: &'a [PartPlace]) -> Outline<'a>
    requires layout { layout.now ≡ layout_of (told draft.now) }
    requires parts { parts.now ≡ (outline_told draft.now).parts }
    ensures { outlined result ≡ outline_told draft.now }
{
    Outline {
        kind: draft.kind,
        parts,
        array_size: layout.array_size,
        got: draft.got,
        tls: draft.tls,
    }
}

/// The page of headers.
fn front_of(alloc: Global, outline: &Outline<'_>) -> Result<Vec<u8>, AllocError>
    requires loadable { IsLoadable (outlined outline.now) }
    requires tls { HoldsTls (outlined outline.now) }
    ensures { IfOk result (λ front. front.items ≡ page (outlined outline.now)) }
{
    let mut front = Vec::new(alloc);
    grow(&mut front, PAGE as usize)?;
    put_page(outline, front.as_mut_slice(), 0);
    Ok(front)
}

/// Zeros up to the next page, and the dynamic tables.
fn back_of(alloc: Global, draft: &Draft<'_>, layout: &Layout) -> Result<Vec<u8>, AllocError>
    requires layout { layout.now ≡ layout_of (told draft.now) }
    requires loadable { IsLoadable (outline_told draft.now) }
    ensures back { IfOk result (λ back. back.items ≡ back_of draft.now) }
    ensures symbols { OnOk result (All IsSymbolFitting draft.now.symbols.now) }
    ensures relocations { OnOk result (All IsRelocationFitting draft.now.relocations.now) }
{
    let address = next_page(draft);
    let gap = (address - places_end(draft)) as usize;
    let mut back = Vec::new(alloc);
    grow(&mut back, gap + layout.size() as usize)?;
    put_tables(draft, layout, address, back.as_mut_slice(), gap);
    Ok(back)
}

/// What stands around the parts of a draft, whatever bytes they have: with them it is the file of the image.
pub fn frame_of(alloc: Global, draft: &Draft<'_>) -> Result<Frame, AllocError>
    requires loadable { IsLoadable (outline_told draft.now) }
    requires tls { HoldsTls (outline_told draft.now) }
    ensures front { IfOk result (λ frame. frame.front.items ≡ front_of draft.now) }
    ensures back { IfOk result (λ frame. frame.back.items ≡ back_of draft.now) }
    ensures symbols { OnOk result (All IsSymbolFitting draft.now.symbols.now) }
    ensures relocations { OnOk result (All IsRelocationFitting draft.now.relocations.now) }
{
    let layout = layout_of(draft);
    let parts = with_tables(alloc, draft, &layout)?;
    let outline = outline_of(draft, &layout, parts.as_slice());
    let front = front_of(alloc, &outline)?;
    let back = back_of(alloc, draft, &layout)?;
    Ok(Frame { front, back })
}
