//! Where all sections of an image go.

ghost use Rattle.std.specs.Prelude.{◌≡◌, ◌+◌, ◌<◌, ◌≤◌, ◌^◌, IfOk, IfErr, Some, None, slice_index_or};
ghost use Rattle.elf_records.specs.Alignments.{IsAlignment};
ghost use Rattle.link_faults.specs.ImageKinds.{base_of};
ghost use Rattle.tls_layout.specs.Places.{extent_for};
ghost use Rattle.tls_layout.specs.Sections.{layout_of};
ghost use Rattle.tls_layout.specs.Places.{class_of, address_of, tls_offset_of, executable as executable_of};
ghost use Rattle.tls_layout.specs.Places.{read_only as read_only_of, tls_image as tls_image_of};
ghost use Rattle.tls_layout.specs.Places.{writable as writable_of, room as room_of, initial_tls};
ghost use Rattle.tls_layout.specs.Places.{tls_size as size_of_tls, tls_alignment as alignment_of_tls, IsLawful};
ghost use Rattle.tls_layout.specs.Faults.{IsLayoutFault};

use crate::extent::{Extent, page_up};
use crate::image_places::{ImageExtents, lay_out_image};
use crate::section_list::{SectionList, list_sections};
use crate::tls_places::{TlsPlaces, no_places, place_tls};
use elf_object::{Object, SectionClass};
use link_faults::{ImageKind, LinkFault};
use std::alloc::Global;
use std::marker::Model;

/// Where the sections of an image go. Contracts see what decides it: the kind of the image, how many sections each
/// object has, and all sections in their order, each with its class, size and alignment.
#[derive(Drop)]
pub struct Placement {
    kind: ImageKind,
    list: SectionList,
    addresses: Vec<Option<u64>>,
    extents: ImageExtents,
    tls: TlsPlaces,
}

impl Model for Placement {
    ghost use Rattle.tls_layout.specs.Sections.{Layout};
    ghost use Rattle.tls_layout.specs.Lists.{IsPlacement};

    ghost Value = { Layout };

    ghost view = { λ p. record { kind = p.kind; counts = p.list.counts.items; sections = p.list.sections.items } };

    ghost invariant = { λ p. IsPlacement p.kind p.list p.addresses.items p.extents p.tls };
}

/// Places the sections of an image. Returns `TlsTooLarge` if the TLS segment has more than 2^20 bytes, else
/// `ImageTooLarge` if the sections span more than 2^24. Both faults are at no object, with section and entry 0.
pub fn place(alloc: Global, objects: &[Object], kind: ImageKind) -> Result<Placement, LinkFault>
    ensures places { IfOk result (λ p. p ≡ layout_of kind objects.now) }
    ensures lawful { IfOk result IsLawful }
    ensures fault { IfErr result (IsLayoutFault (layout_of kind objects.now)) }
{
    let list = list_sections(alloc, objects)?;
    let tls = place_tls(alloc, &list.sections)?;
    let mut addresses = no_places(alloc, list.sections.len())?;
    let extents = lay_out_image(kind, &list.sections, &mut addresses)?;
    Ok(Placement {
        kind,
        list,
        addresses,
        extents,
        tls,
    })
}

/// The entry of a table at an index; `None` past its end.
fn entry(table: &[Option<u64>], index: usize) -> Option<u64>
    ensures { result ≡ slice_index_or table.now index None }
{
    match table.get(index) {
        Some(entry) => *entry,
        None => None,
    }
}

impl Placement {
    /// The class of a section of an object, by their numbers; `None` if linking drops it, or if
    /// there is no such section.
    #[tactic(auto, unfolding(crate::specs::Places::section_named))]
    pub fn class(&self, object: usize, section: u32) -> Option<SectionClass>
        ensures class { result ≡ class_of self.now object section }
        ensures lawful { IsLawful self.now }
    {
        let index = self.list.position(object, section)?;
        self.list.class_at(index)
    }

    /// The address of a section before the loader moves the image; `None` if it has none.
    #[tactic(auto, unfolding(crate::specs::Places::address_of))]
    pub fn address(&self, object: usize, section: u32) -> Option<u64>
        ensures address { result ≡ address_of self.now object section }
        ensures lawful { IsLawful self.now }
    {
        let index = self.list.position(object, section)?;
        entry(&self.addresses, index)
    }

    /// The offset of a section in the TLS segment; `None` if it is not thread-local.
    #[tactic(auto, unfolding(crate::specs::Places::tls_offset_of))]
    pub fn tls_offset(&self, object: usize, section: u32) -> Option<u64>
        ensures offset { result ≡ tls_offset_of self.now object section }
        ensures lawful { IsLawful self.now }
    {
        let index = self.list.position(object, section)?;
        entry(&self.tls.offsets, index)
    }

    /// The kind of the image.
    pub fn kind(&self) -> ImageKind
        ensures { result ≡ self.now.kind }
    {
        self.kind
    }

    /// Where code lies.
    pub fn executable(&self) -> Extent
        ensures extent { result ≡ executable_of self.now.kind self.now.sections }
        ensures lawful { IsLawful self.now }
    {
        self.extents.executable
    }

    /// Where constants lie.
    pub fn read_only(&self) -> Extent
        ensures extent { result ≡ read_only_of self.now.kind self.now.sections }
        ensures lawful { IsLawful self.now }
    {
        self.extents.read_only
    }

    /// Where the initial image of the TLS segment lies.
    pub fn tls_image(&self) -> Extent
        ensures extent { result ≡ tls_image_of self.now.kind self.now.sections }
        ensures lawful { IsLawful self.now }
    {
        self.extents.tls
    }

    /// Where data that programs write lies.
    pub fn writable(&self) -> Extent
        ensures extent { result ≡ writable_of self.now.kind self.now.sections }
        ensures lawful { IsLawful self.now }
    {
        self.extents.writable
    }

    /// Where the sections of a class lie.
    pub fn extent(&self, class: SectionClass) -> Extent
        ensures extent { result ≡ extent_for class self.now }
        ensures lawful { IsLawful self.now }
    {
        match class {
            SectionClass::Executable => self.executable(),
            SectionClass::ReadOnly => self.read_only(),
            SectionClass::Tls { .. } => self.tls_image(),
            SectionClass::Writable { .. } => self.writable(),
        }
    }

    /// Where the room begins, in which no section of an object lies: on the first page after all of them.
    #[tactic(auto, unfolding(crate::specs::Places::room), using(crate::proofs::Together::page_limit))]
    pub fn room(&self) -> u64
        ensures room { result ≡ room_of self.now.kind self.now.sections }
        ensures low { result ≤ base_of self.now.kind + 2 ^ 24 }
        ensures lawful { IsLawful self.now }
    {
        page_up(self.extents.writable.end)
    }

    /// How many bytes the TLS segment has, zeros included.
    pub fn tls_size(&self) -> u64
        ensures size { result ≡ size_of_tls self.now.sections }
        ensures small { result ≤ 2 ^ 20 }
        ensures lawful { IsLawful self.now }
    {
        self.tls.size
    }

    /// How many bytes its initial image has. The rest is zero.
    #[tactic(auto, using(crate::proofs::LawsOfTls::front_len))]
    pub fn initial_size(&self) -> u64
        ensures size { result ≡ (initial_tls self.now.sections).end }
        ensures lawful { IsLawful self.now }
    {
        self.extents.tls.end - self.extents.tls.start
    }

    /// The alignment of the TLS segment: a power of two up to 4,096.
    pub fn tls_alignment(&self) -> u64
        ensures alignment { result ≡ alignment_of_tls self.now.sections }
        ensures power { IsAlignment result }
        ensures lawful { IsLawful self.now }
    {
        self.tls.alignment
    }
}
