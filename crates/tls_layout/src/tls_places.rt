//! The TLS segment: where thread-local sections lie in a module's block.

ghost use Rattle.std.specs.Prelude.{◌≡◌, ◌<◌, ◌≤◌, ◌^◌, All, IfOk, IfErr, OnOk, length};
ghost use Rattle.elf_records.specs.Alignments.{IsAlignment};
ghost use Rattle.link_faults.specs.declared.fault.LinkFaultKind.TheVariants.{TlsTooLarge};
ghost use Rattle.tls_layout.specs.Sections.{IsOrdinary};
ghost use Rattle.tls_layout.specs.Places.{tls_size, next_alignment, greatest_alignment as greatest_of};
ghost use Rattle.tls_layout.specs.Passes.{HaveNone, AreOffsets};
ghost use Rattle.tls_layout.specs.Faults.{IsWhole, IsFaultWhere};
ghost use Rattle.tls_layout.specs.Lists.{IsTlsOf};

use crate::lay_out::{Limit, lay_out};
use crate::sections::{INITIAL_TLS, Section, ZERO_TLS};
use link_faults::{LinkFault, LinkFaultKind};
use std::alloc::{AllocError, Global};

/// The most bytes of a TLS segment.
pub const LARGEST_TLS: u64 = 1 << 20;

/// The TLS segment, and the offset of each section in it.
#[derive(Drop)]
pub struct TlsPlaces {
    pub offsets: Vec<Option<u64>>,
    pub size: u64,
    pub alignment: u64,
}

/// `len` places, none given yet.
pub fn no_places(alloc: Global, len: usize) -> Result<Vec<Option<u64>>, AllocError>
    ensures len { IfOk result (λ places. length places.items ≡ len) }
    ensures none { IfOk result (λ places. HaveNone places.items) }
{
    vec![in alloc; None; len]
}

/// Gives thread-local sections their offsets: first those with bytes in the file, then those without.
/// Returns the segment's size.
fn lay_out_tls(sections: &[Section], offsets: &mut [Option<u64>]) -> Result<u64, LinkFault>
    requires ordinary { All IsOrdinary sections.now }
    requires len { length offsets.old ≡ length sections.now }
    requires none { HaveNone offsets.old }
    ensures size { IfOk result (λ size. (size ≡ tls_size sections.now) × (size ≤ 2 ^ 20)) }
    ensures offsets { OnOk result (AreOffsets sections.now offsets.new) }
    ensures beyond { IfErr result (λ fault. IsWhole TlsTooLarge fault × (2 ^ 20 < tls_size sections.now)) }
{
    let limit = Limit {
        end: LARGEST_TLS,
        kind: LinkFaultKind::TlsTooLarge,
    };
    let initial = lay_out(sections, INITIAL_TLS, 0, limit, offsets)?;
    let zero = lay_out(sections, ZERO_TLS, initial.end, limit, offsets)?;
    Ok(zero.end)
}

/// The greater of two alignments, if the section is thread-local; else `greatest`.
fn greater_alignment(section: &Section, greatest: u64) -> u64
    ensures { result ≡ next_alignment greatest section.now }
{
    if section.is_tls() {
        greatest.max(section.alignment)
    } else {
        greatest
    }
}

/// The greatest alignment of a thread-local section.
#[tactic(auto, unfolding(crate::specs::Places::greatest_alignment))]
fn greatest_alignment(sections: &[Section]) -> u64
    requires { All IsOrdinary sections.now }
    ensures greatest { result ≡ greatest_of sections.now }
    ensures power { IsAlignment result }
{
    let mut greatest = 1;
    for section in sections {
        greatest = greater_alignment(section, greatest);
    }
    greatest
}

/// The TLS segment of these sections.
#[tactic(auto, unfolding(crate::specs::Places::tls_alignment))]
pub fn place_tls(alloc: Global, sections: &[Section]) -> Result<TlsPlaces, LinkFault>
    requires { All IsOrdinary sections.now }
    ensures places { IfOk result (IsTlsOf sections.now) }
    ensures beyond { IfErr result (IsFaultWhere TlsTooLarge (2 ^ 20 < tls_size sections.now)) }
{
    let mut offsets = no_places(alloc, sections.len())?;
    let size = lay_out_tls(sections, &mut offsets)?;
    let alignment = if size == 0 {
        1
    } else {
        greatest_alignment(sections)
    };
    Ok(TlsPlaces {
        offsets,
        size,
        alignment,
    })
}
