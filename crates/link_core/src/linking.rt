//! Linking objects.

ghost use Rattle.std.specs.Prelude.{◌≡◌, ◌-◌, ◌<◌, ◌^◌, ℕ, [], IfErr, IfOk, OnOk, length, map, slice_index_or};
ghost use Rattle.sequence_match.specs.Faults.{AreSites};
ghost use Rattle.tls_symbols.specs.Bindings.{object_at};
ghost use Rattle.link_needs.specs.Linking.{link_of};
ghost use Rattle.link_tables.specs.Faults.{IsLinkFault, IsSound, Links};
ghost use Rattle.link_core.specs.Images.{image_of, linked_of};
ghost use Rattle.link_core.specs.Laws.{HasNoStray};

use crate::linked::Linked;
use crate::ready::{ReadyLink, prepare};
use elf_object::Object;
use file_bytes::join;
use image_file::Image;
use link_faults::{ImageKind, LinkFault};
use sequence_match::Site;
use std::alloc::{AllocError, Global};
use std::thread::Threads;
use tls_symbols::Exports;

/// The image of a ready link: its pieces, joined.
fn image<R: Threads>(rt: &R, alloc: Global, ready: &ReadyLink) -> Result<Image, AllocError>
    requires { Links ready.now }
    ensures { IfOk result (λ image. image ≡ image_of ready.now) }
{
    let pieces = ready.pieces(rt, alloc)?;
    let file = join(alloc, &pieces)?;
    Ok(Image::from_bytes(file))
}

impl ReadyLink<'_, '_, '_> {
    /// Writes the image. All fields must hold their values, which [`overflow`](Self::overflow) tests. Fails only when
    /// memory runs out.
    #[tactic(auto, unfolding(crate::specs::Images::linked_of))]
    pub fn write<R: Threads>(self, rt: &R, alloc: Global) -> Result<Linked, AllocError>
        requires { Links self }
        ensures { IfOk result (λ linked. linked ≡ linked_of self.entry) }
    {
        let image = image(rt, alloc, &self)?;
        Ok(Linked {
            image,
            choices: self.into_choices(),
        })
    }
}

/// Writes the image of a ready link. The error is the first field that can't hold its value.
fn written<R: Threads>(rt: &R, alloc: Global, ready: ReadyLink) -> Result<Linked, LinkFault>
    requires { IsSound ready }
    ensures linked { IfOk result (λ linked. linked ≡ linked_of ready.entry) }
    ensures links { OnOk result (Links ready.entry) }
    ensures fault { IfErr result (IsLinkFault ready.entry) }
{
    match ready.overflow() {
        None => Ok(ready.write(rt, alloc)?),
        Some(fault) => Err(fault),
    }
}

/// Links objects into an image of this kind. `startup` has what each startup image exports, in image order; an image
/// that is one itself is among them. `sites` has the sequences of each object. They are all that it has of thread-local
/// storage: no relocation of a sequence and no call of the run time is outside them. `relax` says whether they may be
/// rewritten. The error is the first fault: the kinds in their order, `Overflow` last, and within a kind the first
/// object, section and entry.
pub fn link<'a, R: Threads + Sync>(
    rt: &R,
    alloc: Global,
    objects: &[Object<'a>],
    sites: &[Vec<Site>],
    kind: ImageKind,
    startup: &[Exports<'a>],
    relax: bool,
) -> Result<Linked, LinkFault>
    requires few { length startup.now < 2 ^ 32 - 1 }
    requires each { length sites.now ≡ length objects.now }
    requires sites { (o : ℕ) → o < length objects.now
        → AreSites (object_at objects.now o) (slice_index_or (map (λ own. own.items) sites.now) o []) }
    requires stray { HasNoStray (link_of objects.now sites.now kind startup.now relax) }
    ensures linked { IfOk result (λ linked.
        linked ≡ linked_of (link_of objects.now sites.now kind startup.now relax)) }
    ensures links { OnOk result (Links (link_of objects.now sites.now kind startup.now relax)) }
    ensures fault { IfErr result (IsLinkFault (link_of objects.now sites.now kind startup.now relax)) }
{
    match prepare(rt, alloc, objects, sites, kind, startup, relax) {
        Ok(ready) => written(rt, alloc, ready),
        Err(fault) => Err(fault),
    }
}
