//! The words that a loader writes for a relocation (psABI, "Relocation Types"; Drepper, "ELF Handling For Thread-Local
//! Storage", section 4.4).

ghost use Rattle.std.specs.Prelude.{◌<◌, ◌^◌, ◌≡◌, ◌≤◌, ◌+◌, ℕ, List, length};
ghost use Rattle.elf_records.specs.Fields.{bytes_of, splice};
ghost use Rattle.loaded_modules.specs.Loader.{bias, lies_in, own_target, with_written, written_bytes};
ghost use Rattle.loaded_modules.specs.Words.{words_bytes, IsWindow};
ghost use Rattle.image_file.specs.Spelled.{lent_part};

use crate::instance::Instance;
use address_map::{DESCRIPTOR, GET_ADDRESS, moved_bias};
use image_file::{FileKind, ImagePart, ImageRelocation, LoaderKind};

/// A thread-local symbol as the loader finds it.
#[derive(Clone, Copy)]
pub(crate) struct Target {
    /// The module id of the image that has it.
    pub(crate) id: u64,
    /// Its offset in that image's blocks.
    pub(crate) offset: u64,
    /// How far below the thread pointer these blocks begin, if that is fixed; else 0.
    pub(crate) distance: u64,
}

/// The one or two words that a loader writes.
#[derive(Clone, Copy)]
pub(crate) struct Words {
    pub(crate) first: u64,
    pub(crate) second: Option<u64>,
}

impl Words {
    fn one(word: u64) -> Words
        ensures { words_bytes result ≡ bytes_of 8 word }
    {
        Words {
            first: word,
            second: None,
        }
    }
}

/// How far a loader moves an image of this kind when it loads it as this instance.
#[tactic(auto, unfolding(crate::specs::Loader::bias))]
pub(crate) fn bias(kind: FileKind, number: u32) -> u64
    ensures value { result ≡ bias kind number }
    ensures low { result < 2 ^ 59 }
{
    match kind {
        FileKind::Exe => 0,
        FileKind::Pie | FileKind::Module => moved_bias(number),
    }
}

/// The target of a relocation without a symbol: the image itself, at the addend.
pub(crate) fn own_target(instance: &Instance, relocation: ImageRelocation) -> Target
    ensures { result ≡ own_target instance.now relocation }
{
    Target {
        id: instance.id,
        offset: relocation.addend.cast_unsigned(),
        distance: instance.offset.unwrap_or(0),
    }
}

/// The words for a relocation of this type.
pub(crate) fn words_of(
    kind: FileKind,
    instance: &Instance,
    target: Target,
    relocation: ImageRelocation,
) -> Words
    ensures { words_bytes result ≡ written_bytes kind instance.now target relocation.kind relocation.addend }
{
    match relocation.kind {
        LoaderKind::JumpSlot => Words::one(GET_ADDRESS),
        LoaderKind::Relative => {
            let moved = bias(kind, instance.number);
            Words::one(moved.wrapping_add(relocation.addend.cast_unsigned()))
        }
        LoaderKind::Module => Words::one(target.id),
        LoaderKind::ModuleOffset => Words::one(target.offset),
        LoaderKind::ThreadOffset => Words::one(target.offset.wrapping_sub(target.distance)),
        LoaderKind::Descriptor => {
            let high = target.id.wrapping_mul(1 << 32);
            Words {
                first: DESCRIPTOR,
                second: Some(high.wrapping_add(target.offset)),
            }
        }
    }
}

/// The bytes of a word, the lowest first.
#[tactic(auto, unfolding(elf_records::specs::Fields::bytes_of))]
fn word_bytes(word: u64) -> [u8; 8]
    ensures { result ≡ bytes_of 8 word }
{
    word.to_le_bytes()
}

/// Writes the bytes at `place` as far as they lie in a window that begins at `from`.
fn overlay(window: &mut [u8], from: u64, place: u64, bytes: &[u8])
    requires window { from + length window.old < 2 ^ 64 }
    requires bytes { place + length bytes.now < 2 ^ 64 }
    ensures len { length window.new ≡ length window.old }
    ensures shows { (whole : List ℕ) → place + length bytes.now ≤ length whole → IsWindow whole from window.old
        → IsWindow (splice place bytes.now whole) from window.new }
{
    let start = place.max(from);
    let end = (place + bytes.len() as u64).min(from + window.len() as u64);
    if start < end {
        let inside = &bytes[(start - place) as usize..(end - place) as usize];
        window[(start - from) as usize..(end - from) as usize].copy_from_slice(inside);
    }
}

/// Whether `count` bytes at `place` all lie in a part.
pub(crate) fn lies_in(part: ImagePart, place: u64, count: u64) -> bool
    ensures { result ≡ lies_in (lent_part part.entry) place count }
{
    let end = u128::from(place) + u128::from(count);
    part.address <= place && end <= u128::from(part.address) + part.bytes.len() as u128
}

/// How many bytes the words have.
fn count_of(words: Words) -> u64
    ensures { result ≡ length (words_bytes words) }
{
    match words.second {
        Some(_) => 16,
        None => 8,
    }
}

/// Writes the words at `place` of a part that holds them, as far as they lie in a window that begins `from` bytes
/// past the part's start.
fn put_words(window: &mut [u8], from: u64, place: u64, words: Words)
    requires window { from + length window.old < 2 ^ 64 }
    requires words { place + length (words_bytes words) < 2 ^ 64 }
    ensures len { length window.new ≡ length window.old }
    ensures shows { (whole : List ℕ) → place + length (words_bytes words) ≤ length whole
        → IsWindow whole from window.old → IsWindow (splice place (words_bytes words) whole) from window.new }
{
    overlay(window, from, place, &word_bytes(words.first));
    if let Some(second) = words.second {
        overlay(window, from, place + 8, &word_bytes(second));
    }
}

/// Writes the words at their place, as far as they lie in a window of a part, if the part holds them.
pub(crate) fn relocate(window: &mut [u8], from: u64, part: ImagePart, place: u64, words: Words)
    requires { from + length window.old ≤ length part.bytes.now }
    ensures len { length window.new ≡ length window.old }
    ensures shows { (bytes : List ℕ) → length bytes ≡ length part.entry.bytes.now → IsWindow bytes from window.old
        → IsWindow (with_written (lent_part part.entry) bytes place (words_bytes words)) from window.new }
{
    if lies_in(part, place, count_of(words)) {
        put_words(window, from, place - part.address, words);
    }
}
