//! The text of an image.

ghost use Rattle.std.specs.Prelude.{◌≡◌, ◌++◌, OnOk, OnErr, drop, flat_map, option_and_then, option_to_list};
ghost use Rattle.std.specs.Prelude.{slice_get};
ghost use Rattle.std.specs.List.{zip};
ghost use Rattle.image_text.specs.Shown.{part_line, tls_line, relro_line, symbol_line};
ghost use Rattle.image_text.specs.Shown.{relocation_line, shown};

use crate::lines::{
    push_flag, push_kind, push_part, push_relocation, push_relro, push_symbol, push_tls,
};
use image_file::Image;
use std::alloc::AllocError;

/// Appends the line of a part, if there is one of this number.
fn push_part_at(text: &mut Vec<u8>, image: &Image, number: u64) -> Result<(), AllocError>
    ensures { OnOk result
        (text.new.items
        ≡ text.old.items ++ flat_map part_line (option_to_list (slice_get image.now.parts number))) }
{
    match image.part(number) {
        Some(part) => push_part(text, part),
        None => Ok(()),
    }
}

/// Appends a line for each part.
fn push_parts(text: &mut Vec<u8>, image: &Image) -> Result<(), AllocError>
    ensures { OnOk result (text.new.items ≡ text.old.items ++ flat_map part_line image.now.parts) }
{
    for number in 0..image.part_count() {
        push_part_at(text, image, number)?;
    }
    Ok(())
}

/// Appends the line of the TLS segment, if there is one.
fn push_segment(text: &mut Vec<u8>, image: &Image) -> Result<(), AllocError>
    ensures { OnOk result
        (text.new.items ≡ text.old.items ++ flat_map tls_line (option_to_list image.now.tls)) }
{
    match image.tls() {
        Some(tls) => push_tls(text, tls),
        None => Ok(()),
    }
}

/// Appends the line of the GOT, if there is one.
fn push_got(text: &mut Vec<u8>, image: &Image) -> Result<(), AllocError>
    ensures { OnOk result
        (text.new.items
        ≡ text.old.items
        ++ flat_map relro_line
        (option_to_list (option_and_then (slice_get image.now.parts) image.now.got))) }
{
    let Some(number) = image.got() else {
        return Ok(());
    };
    match image.part(number) {
        Some(part) => push_relro(text, part),
        None => Ok(()),
    }
}

/// Appends the line of a symbol, if there is one of this number.
fn push_symbol_at(text: &mut Vec<u8>, image: &Image, number: u64) -> Result<(), AllocError>
    ensures { OnOk result
        (text.new.items
        ≡ text.old.items
        ++ flat_map symbol_line
        (option_to_list (slice_get (zip image.now.symbols image.now.names) number))) }
{
    let Some(symbol) = image.symbol(number) else {
        return Ok(());
    };
    let Some(name) = image.symbol_name(number) else {
        return Ok(());
    };
    push_symbol(text, symbol, name)
}

/// Appends a line for each symbol but the reserved one.
fn push_symbols(text: &mut Vec<u8>, image: &Image) -> Result<(), AllocError>
    ensures { OnOk result
        (text.new.items
        ≡ text.old.items ++ flat_map symbol_line (drop 1 (zip image.now.symbols image.now.names))) }
{
    for number in 1..image.symbol_count() {
        push_symbol_at(text, image, number)?;
    }
    Ok(())
}

/// Appends the line of a relocation, if there is one of this number.
fn push_relocation_at(text: &mut Vec<u8>, image: &Image, number: u64) -> Result<(), AllocError>
    ensures { OnOk result
        (text.new.items
        ≡ text.old.items
        ++ flat_map relocation_line (option_to_list (slice_get image.now.relocations number))) }
{
    match image.relocation(number) {
        Some(relocation) => push_relocation(text, relocation),
        None => Ok(()),
    }
}

/// Appends a line for each relocation.
fn push_relocations(text: &mut Vec<u8>, image: &Image) -> Result<(), AllocError>
    ensures { OnOk result
        (text.new.items ≡ text.old.items ++ flat_map relocation_line image.now.relocations) }
{
    for number in 0..image.relocation_count() {
        push_relocation_at(text, image, number)?;
    }
    Ok(())
}

/// Appends the text of an image. If memory runs out, nothing is appended.
#[tactic(auto, unfolding(crate::specs::Shown::shown))]
pub fn push_shown(image: &Image, into: &mut Vec<u8>) -> Result<(), AllocError>
    ensures ok { OnOk result (into.new.items ≡ into.old.items ++ shown image.now) }
    ensures err { OnErr result (into.new.items ≡ into.old.items) }
{
    let mut text = Vec::new(*into.allocator());
    push_kind(&mut text, image.kind())?;
    push_parts(&mut text, image)?;
    push_segment(&mut text, image)?;
    push_got(&mut text, image)?;
    push_symbols(&mut text, image)?;
    push_relocations(&mut text, image)?;
    push_flag(&mut text, image.is_flagged())?;
    into.extend_from_slice(text.as_slice())?;
    Ok(())
}
