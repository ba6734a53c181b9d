//! Writes the file of an image.

ghost use Rattle.std.specs.Prelude.{◌≡◌, ◌↔◌, ◌+◌, ◌-◌, ◌^◌, ◌<◌, ◌≤◌, ◌++◌, OnOk, OnErr, IfOk, IsTrue, length, map, replicate};
ghost use Rattle.elf_records.specs.Fields.{splice};
ghost use Rattle.image_faults.specs.Faults.{IsImage};
ghost use Rattle.image_file.specs.Spelled.{spelled};
ghost use Rattle.image_writer.specs.Loadable.{IsLoadable, HoldsTls};
ghost use Rattle.image_writer.specs.Outlined.{outlined, outline_of, place_of, last_part, end_of};
ghost use Rattle.image_writer.specs.Contents.{part_in};
ghost use Rattle.image_writer.specs.Page.{base_of, file_offset, page};
ghost use Rattle.image_writer.specs.Written.{laid, written};

use crate::outline::{Outline, PartPlace};
use crate::page::{base_of, file_offset, put_page};
use crate::put::{grow, put_bytes, put_zeros};
use elf_records::alignment::PAGE;
use image_file::{Image, ImagePart, image_is_spelled};
use std::alloc::{AllocError, Global};

/// Where a part lies.
fn place_of(part: &ImagePart<'_>) -> PartPlace
    ensures { result ≡ record { class = part.now.class; address = part.now.address; size = length part.now.bytes.now } }
{
    PartPlace {
        class: part.class,
        address: part.address,
        size: part.bytes.len() as u64,
    }
}

/// Where the parts of an image lie.
fn places_of(alloc: Global, image: &Image) -> Result<Vec<PartPlace>, AllocError>
    requires { IsLoadable (outline_of image.now) }
    ensures { IfOk result (λ places. places.items ≡ map place_of image.now.parts) }
{
    let mut places = Vec::with_capacity(alloc, image.part_count() as usize)?;
    for number in 0..image.part_count() {
        match image.part(number) {
            Some(part) => places.push(place_of(&part))?,
            None => unreachable!(),
        }
    }
    Ok(places)
}

/// How many bytes the file of an image has: it ends with the last part.
fn file_size(outline: &Outline<'_>) -> usize
    requires { IsLoadable (outlined outline.now) }
    ensures { result ≡ file_offset outline.now.kind (end_of (last_part (outlined outline.now))) }
{
    let last = &outline.parts[outline.parts.len() - 1];
    file_offset(outline.kind, last.address + last.size) as usize
}

/// Puts a part after the one that ends at `end`, with zeros between them.
fn put_part(part: &ImagePart<'_>, end: u64, out: &mut [u8], at: usize)
    requires rising { end ≤ part.now.address }
    requires room { at + (part.now.address - end + length part.now.bytes.now) ≤ length out.old }
    ensures { out.new ≡ splice at (replicate (part.now.address - end) 0 ++ part.now.bytes.now) out.old }
{
    let gap = (part.address - end) as usize;
    put_zeros(out, at, gap);
    put_bytes(out, at + gap, part.bytes);
}

/// Puts the parts of an image, each at its address, with zeros between them.
fn put_parts(image: &Image, out: &mut [u8], at: usize)
    requires loadable { IsLoadable (outline_of image.now) }
    requires room { at + length (laid (base_of image.now.kind) image.now.parts) ≤ length out.old }
    ensures { out.new ≡ splice at (laid (base_of image.now.kind) image.now.parts) out.old }
{
    let base = base_of(image.kind());
    let mut end = base;
    for number in 0..image.part_count() {
        match image.part(number) {
            Some(part) => {
                put_part(&part, end, out, at + (end - base) as usize);
                end = part.address + part.bytes.len() as u64;
            }
            None => unreachable!(),
        }
    }
}

/// What an image's headers say of it, with the places of its parts.
fn outline_of<'a>(image: &Image, places: &'a [PartPlace]) -> Outline<'a>
    requires { places.now ≡ map place_of image.now.parts }
    ensures { outlined result ≡ outline_of image.now }
{
    Outline {
        kind: image.kind(),
        parts: places,
        array_size: image.array_size(),
        got: image.got(),
        tls: image.tls(),
    }
}

/// The written file of an image is read as that very image. The call does nothing; it gives a proof this fact.
fn written_again(image: &Image)
    requires { HoldsTls (outline_of image.now) }
    ensures loadable { IsLoadable (outline_of image.now) }
    ensures size { length (written image.now) ≡ file_offset image.now.kind (end_of (last_part (outline_of image.now))) }
    ensures again { IsImage (written image.now) × (spelled (written image.now) ≡ image.now) }
{
    image_is_spelled(image);
}

/// Puts the page of headers and the parts of an image.
fn put_image(image: &Image, outline: &Outline<'_>, out: &mut [u8], at: usize)
    requires outline { outlined outline.now ≡ outline_of image.now }
    requires loadable { IsLoadable (outline_of image.now) }
    requires tls { HoldsTls (outline_of image.now) }
    requires room { at + length (written image.now) ≤ length out.old }
    ensures { out.new ≡ splice at (written image.now) out.old }
{
    put_page(outline, out, at);
    put_parts(image, out, at + PAGE as usize);
}

/// Puts zeros between parts that stand at their offsets already.
fn put_gaps(outline: &Outline<'_>, out: &mut [u8])
    requires loadable { IsLoadable (outlined outline.now) }
    requires room { file_offset outline.now.kind (end_of (last_part (outlined outline.now))) ≤ length out.old }
    ensures { out.new ≡ splice PAGE (laid (base_of outline.now.kind)
        (map (part_in outline.now.kind out.old) outline.now.parts.now)) out.old }
{
    let mut end = base_of(outline.kind);
    for part in outline.parts {
        let gap = part.address - end;
        put_zeros(out, file_offset(outline.kind, end) as usize, gap as usize);
        end = part.address + part.size;
    }
}

/// Puts everything of a file except its parts, which are at their offsets already: the page of headers, and
/// zeros between the parts.
fn put_around(outline: &Outline<'_>, out: &mut [u8])
    requires loadable { IsLoadable (outlined outline.now) }
    requires tls { HoldsTls (outlined outline.now) }
    requires ends { length out.old ≡ file_offset outline.now.kind (end_of (last_part (outlined outline.now))) }
    ensures { out.new ≡ page (outlined outline.now) ++ laid (base_of outline.now.kind)
        (map (part_in outline.now.kind out.old) outline.now.parts.now) }
{
    put_gaps(outline, out);
    put_page(outline, out, 0);
}

/// Whether the TLS segment of an image, if there is one, begins no further than the last part ends: what [`write`] and
/// [`into_file`] require of it.
#[tactic(auto, using(crate::proofs::LastPart::none_held, crate::proofs::LastPart::held, crate::proofs::LastPart::empty_held))]
pub fn holds_tls(image: &Image) -> bool
    ensures { IsTrue result ↔ HoldsTls (outline_of image.now) }
{
    let Some(tls) = image.tls() else {
        return true;
    };
    match image.part(image.part_count().saturating_sub(1)) {
        Some(last) => tls.address <= last.address.saturating_add(last.bytes.len() as u64),
        None => tls.address == 0,
    }
}

/// Gives up an image for its file. The bytes of its parts stay where they are, without a copy. The file is read as that
/// very image. It accepts the images that [`write`] accepts.
pub fn into_file(alloc: Global, image: Image) -> Result<Vec<u8>, AllocError>
    requires { HoldsTls (outline_of image) }
    ensures file { IfOk result (λ file. file.items ≡ written image) }
    ensures again { IsImage (written image) × (spelled (written image) ≡ image) }
{
    written_again(&image);
    let places = places_of(alloc, &image)?;
    let outline = outline_of(&image, places.as_slice());
    let mut file = image.into_bytes();
    file.truncate(file_size(&outline));
    put_around(&outline, file.as_mut_slice());
    Ok(file)
}

/// Appends the file of an image: a page of headers, and each part at its address. The file is read as that very
/// image. If memory runs out, nothing is appended.
///
/// It requires that the TLS segment begins no further than the last part ends (`HoldsTls`). An image that was
/// read may break that if its initial image is empty: its file would end before that segment begins, and no
/// reader would accept it.
pub fn write(alloc: Global, image: &Image, into: &mut Vec<u8>) -> Result<(), AllocError>
    requires { HoldsTls (outline_of image.now) }
    ensures ok { OnOk result (into.new.items ≡ into.old.items ++ written image.now) }
    ensures err { OnErr result (into.new.items ≡ into.old.items) }
    ensures again { IsImage (written image.now) × (spelled (written image.now) ≡ image.now) }
{
    written_again(image);
    let places = places_of(alloc, image)?;
    let outline = outline_of(image, places.as_slice());
    let at = into.len();
    grow(into, file_size(&outline))?;
    put_image(image, &outline, into.as_mut_slice(), at);
    Ok(())
}
