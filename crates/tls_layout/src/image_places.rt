//! Where the classes of sections lie in an image.

ghost use Rattle.std.specs.Prelude.{◌≡◌, ◌+◌, ◌<◌, ◌≤◌, ◌^◌, All, IfOk, IfErr, OnOk, length};
ghost use Rattle.link_faults.specs.declared.fault.LinkFaultKind.TheVariants.{ImageTooLarge};
ghost use Rattle.tls_layout.specs.Sections.{IsOrdinary};
ghost use Rattle.tls_layout.specs.Places.{span};
ghost use Rattle.tls_layout.specs.Passes.{HaveNone, AreAddresses};
ghost use Rattle.tls_layout.specs.Faults.{IsWhole};
ghost use Rattle.tls_layout.specs.Lists.{AreExtents};

use crate::extent::{Extent, page_up};
use crate::lay_out::{Limit, lay_out};
use crate::sections::{INITIAL_DATA, INITIAL_TLS, Section, ZERO_DATA};
use elf_object::SectionClass::{Executable, ReadOnly};
use link_faults::{ImageKind, LinkFault, LinkFaultKind};

/// The most bytes that the sections of an image may span.
pub const LARGEST_SPAN: u64 = 1 << 24;

/// Where each class lies. Each begins on a page of its own.
#[derive(Clone, Copy)]
pub struct ImageExtents {
    pub executable: Extent,
    pub read_only: Extent,
    /// The initial image of thread-local storage.
    pub tls: Extent,
    pub writable: Extent,
}

/// Gives sections their addresses, one class after another.
pub fn lay_out_image(
    kind: ImageKind,
    sections: &[Section],
    addresses: &mut [Option<u64>],
) -> Result<ImageExtents, LinkFault>
    requires ordinary { All IsOrdinary sections.now }
    requires len { length addresses.old ≡ length sections.now }
    requires none { HaveNone addresses.old }
    ensures extents { IfOk result (AreExtents kind sections.now) }
    ensures addresses { OnOk result (AreAddresses kind sections.now addresses.new) }
    ensures beyond { IfErr result (λ fault. IsWhole ImageTooLarge fault × (2 ^ 24 < span kind sections.now)) }
{
    let base = kind.base();
    let limit = Limit {
        end: base + LARGEST_SPAN,
        kind: LinkFaultKind::ImageTooLarge,
    };
    let executable = lay_out(sections, Executable, base, limit, addresses)?;
    let constants = page_up(executable.end);
    let read_only = lay_out(sections, ReadOnly, constants, limit, addresses)?;
    let image = page_up(read_only.end);
    let tls = lay_out(sections, INITIAL_TLS, image, limit, addresses)?;
    let data = page_up(tls.end);
    let initial = lay_out(sections, INITIAL_DATA, data, limit, addresses)?;
    let zero = lay_out(sections, ZERO_DATA, initial.end, limit, addresses)?;
    let writable = Extent {
        start: initial.start,
        end: zero.end,
    };
    Ok(ImageExtents {
        executable,
        read_only,
        tls,
        writable,
    })
}
