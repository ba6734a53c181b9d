//! The parts of an image, and its draft: what it is made from, before its dynamic tables are laid out.

ghost use Rattle.std.specs.Prelude.{◌≡◌, ◌<◌, ◌++◌, IfOk, OnOk};
ghost use Rattle.image_writer.specs.Contents.{contents_of};
ghost use Rattle.link_tables.specs.Dynamic.{image_relocations, is_flagged, names, symbols as symbols_of_link};
ghost use Rattle.link_tables.specs.FaultLaws.{names_in, symbols_in};
ghost use Rattle.link_needs.specs.Linking.{layout};
ghost use Rattle.link_core.specs.Bytes.{file};
ghost use Rattle.link_core.specs.Images.{contents, file_kind, filled, got_number, got_places, places, section_places};
ghost use Rattle.link_core.specs.Images.{stub_places, tls_part};

use image_file::{FileKind, ImageRelocation, PartClass, TlsPart};
use image_writer::{Draft, NamedSymbol, PartPlace};
use link_faults::ImageKind;
use link_needs::{Inputs, Plan};
use link_tables::{Tables, relocations, symbols};
use std::alloc::{AllocError, Global};
use tls_layout::{Extent, Placement};

/// The size of the stub, in bytes.
const STUB_SIZE: u64 = 6;

/// The file type of an image of this kind.
pub fn file_kind(kind: ImageKind) -> FileKind
    ensures { result ≡ file_kind kind }
{
    match kind {
        ImageKind::Exe => FileKind::Exe,
        ImageKind::Pie => FileKind::Pie,
        ImageKind::Start | ImageKind::Late => FileKind::Module,
    }
}

/// Adds the part of a class of sections, if it has bytes.
fn push_extent(
    class: PartClass,
    extent: Extent,
    places: &mut Vec<PartPlace>,
) -> Result<(), AllocError>
    ensures { OnOk result (places.new.items ≡ places.old.items ++ filled class extent) }
{
    if extent.start < extent.end {
        places.push(PartPlace {
            class,
            address: extent.start,
            size: extent.end - extent.start,
        })?;
    }
    Ok(())
}

/// The parts of the sections, in the order of their addresses.
#[tactic(auto, unfolding(crate::specs::Images::section_places))]
pub fn section_places(alloc: Global, placement: &Placement) -> Result<Vec<PartPlace>, AllocError>
    ensures { IfOk result (λ places. places.items ≡ section_places placement.now) }
{
    let mut places = Vec::with_capacity(alloc, 8)?;
    push_extent(PartClass::Executable, placement.executable(), &mut places)?;
    push_extent(PartClass::ReadOnly, placement.read_only(), &mut places)?;
    push_extent(PartClass::ReadOnly, placement.tls_image(), &mut places)?;
    push_extent(PartClass::Writable, placement.writable(), &mut places)?;
    Ok(places)
}

/// Adds the parts of the offset table and the stub. Returns the number of the table's part, if there is one.
#[tactic(auto, unfolding(crate::specs::Images::got_number))]
pub fn push_made(plan: &Plan, places: &mut Vec<PartPlace>) -> Result<Option<u64>, AllocError>
    requires sections { places.old.items ≡ section_places (layout plan.now) }
    ensures places { OnOk result
        (places.new.items ≡ places.old.items ++ (got_places plan.now ++ stub_places plan.now)) }
    ensures number { IfOk result (λ number. number ≡ got_number plan.now) }
{
    let mut got = None;
    if plan.got.size() != 0 {
        got = Some(places.len() as u64);
        places.push(PartPlace {
            class: PartClass::Writable,
            address: plan.got_start,
            size: plan.got.size(),
        })?;
    }
    if plan.has_stub {
        places.push(PartPlace {
            class: PartClass::Executable,
            address: plan.stub_start,
            size: STUB_SIZE,
        })?;
    }
    Ok(got)
}

/// The TLS segment, if it has bytes.
#[tactic(auto, unfolding(crate::specs::Images::tls_part))]
pub fn tls_part(placement: &Placement) -> Option<TlsPart>
    ensures { result ≡ tls_part placement.now }
{
    if placement.tls_size() == 0 {
        return None;
    }
    Some(TlsPart {
        address: placement.tls_image().start,
        initial: placement.initial_size(),
        size: placement.tls_size(),
        alignment: placement.tls_alignment(),
    })
}

/// Whether the image is a module that reaches thread-local data at a fixed distance from the thread pointer.
#[tactic(auto, unfolding(link_tables::specs::Dynamic::is_flagged))]
pub fn is_flagged(inputs: &Inputs) -> bool
    ensures { result ≡ is_flagged inputs.now }
{
    inputs.kind.is_module() && inputs.has_initial()
}

/// The lists of a draft.
#[derive(Drop)]
pub struct DraftLists<'a> {
    parts: Vec<PartPlace>,
    /// The number of the part that only the loader writes.
    got: Option<u64>,
    symbols: Vec<NamedSymbol<'a>>,
    relocations: Vec<ImageRelocation>,
}

/// Makes the lists of a link's draft.
pub fn draft_lists<'a>(
    alloc: Global,
    tables: &Tables<'_, '_, 'a>,
) -> Result<DraftLists<'a>, AllocError>
    ensures parts { IfOk result (λ lists. lists.parts.items ≡ places tables.now) }
    ensures got { IfOk result (λ lists. lists.got ≡ got_number tables.now) }
    ensures symbols { IfOk result (λ lists. symbols_in lists.symbols.items ≡ symbols_of_link tables.now) }
    ensures names { IfOk result (λ lists. names_in lists.symbols.items ≡ names tables.now) }
    ensures relocations { IfOk result (λ lists. lists.relocations.items ≡ image_relocations tables.now) }
{
    let plan = &tables.plan;
    let inputs = &plan.inputs;
    let mut parts = section_places(alloc, &inputs.placement)?;
    let got = push_made(plan, &mut parts)?;
    let symbols = symbols(alloc, tables)?;
    let relocations = relocations(alloc, tables)?;
    Ok(DraftLists {
        parts,
        got,
        symbols,
        relocations,
    })
}

/// The draft of these lists.
pub fn draft_of<'d, 'a: 'd>(inputs: &Inputs, lists: &'d DraftLists<'a>) -> Draft<'d>
    requires parts { lists.now.parts.items ≡ places inputs.now }
    requires got { lists.now.got ≡ got_number inputs.now }
    requires symbols { symbols_in lists.now.symbols.items ≡ symbols_of_link inputs.now }
    requires names { names_in lists.now.symbols.items ≡ names inputs.now }
    requires relocations { lists.now.relocations.items ≡ image_relocations inputs.now }
    ensures kind { result.kind ≡ file_kind inputs.now.kind }
    ensures parts { result.parts.now ≡ places inputs.now }
    ensures contents { contents_of result (file inputs.now) ≡ contents inputs.now }
{
    Draft {
        kind: file_kind(inputs.kind),
        parts: lists.parts.as_slice(),
        got: lists.got,
        tls: tls_part(&inputs.placement),
        symbols: lists.symbols.as_slice(),
        relocations: lists.relocations.as_slice(),
        is_flagged: is_flagged(inputs),
    }
}
