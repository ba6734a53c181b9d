//! A link that is ready to be written. All that can refuse it was tested, except whether its fields hold their values,
//! and its offset table is laid out. No byte of the image is written.

ghost use Rattle.std.specs.Prelude.{◌≡◌, ◌-◌, ◌<◌, ◌^◌, ℕ, [], None, IfErr, IfOk, OnOk, length, map, slice_index_or};
ghost use Rattle.sequence_match.specs.Faults.{AreSites};
ghost use Rattle.link_needs.specs.Refusals.{FitsKind, FitsStorage};
ghost use Rattle.tls_layout.specs.Places.{tls_alignment, tls_size, IsLawful};
ghost use Rattle.tls_layout.specs.Rounding.{round_up};
ghost use Rattle.tls_layout.specs.Sections.{layout_of};
ghost use Rattle.tls_symbols.specs.Bindings.{object_at};
ghost use Rattle.tls_symbols.specs.Faults.{AreResolved};
ghost use Rattle.link_needs.specs.Linking.{choices_from, link_of};
ghost use Rattle.link_tables.specs.Faults.{IsLinkFault, IsSound};
ghost use Rattle.link_tables.specs.FaultLaws.{ArePrepared, LacksStorage};
ghost use Rattle.link_core.specs.Requests.{link_asked};

use dynamic_symbols::{defined_symbols, imports, names_fit};
use elf_object::Object;
use indexmap::IndexSet;
use link_faults::{ImageKind, LinkFault, LinkFaultKind, SymbolRef};
use link_needs::{Inputs, Plan, ask_kind, ask_tls, has_few_relocations, plan_of};
use link_tables::Tables;
use relax_sites::Choice;
use sequence_match::Site;
use std::alloc::{AllocError, Global};
use std::marker::Model;
use std::thread::Threads;
use tls_layout::{Placement, TlsSize, place, static_offsets};
use tls_symbols::{Bindings, Exports, resolve};

/// A link with no fault, except that a field may overflow, and with its offset table laid out. Contracts see the link.
#[derive(Drop)]
pub struct ReadyLink<'l, 's, 'a> {
    pub(crate) tables: Tables<'l, 's, 'a>,
}

impl<'l, 's, 'a> Model for ReadyLink<'l, 's, 'a> {
    ghost use Rattle.link_needs.specs.Linking.{Linking};
    ghost use Rattle.link_tables.specs.Faults.{IsSound};

    ghost Value = { Linking };

    ghost view = { λ ready. ready.tables };

    ghost invariant = { λ ready. IsSound ready.tables };
}

/// The names of an image: the symbols that it defines for others, and those that it imports.
#[derive(Drop)]
struct Names<'a> {
    own: Vec<SymbolRef>,
    imports: IndexSet<&'a [u8]>,
}

/// How far below the thread pointer the block of a program begins.
fn block_offset(alloc: Global, placement: &Placement) -> Result<u64, AllocError>
    ensures { IfOk result (λ offset. offset
        ≡ round_up (tls_size placement.now.sections) (tls_alignment placement.now.sections)) }
{
    let segment = TlsSize {
        size: placement.tls_size(),
        alignment: placement.tls_alignment(),
    };
    let offsets = static_offsets(alloc, &[segment])?;
    Ok(offsets[0])
}

/// The fault of an image that is too large as a whole.
fn too_large() -> LinkFault
    ensures { result ≡ LinkFault.At LinkFaultKind.ImageTooLarge None 0 0 }
{
    LinkFault::At {
        kind: LinkFaultKind::ImageTooLarge,
        object: None,
        section: 0,
        entry: 0,
    }
}

/// What is linked, and how.
#[derive(Clone, Copy)]
struct Request<'l, 'a> {
    objects: &'l [Object<'a>],
    sites: &'l [Vec<Site>],
    kind: ImageKind,
    relax: bool,
}

/// The names of an image. The fault is that it has too many relocations, or too long names.
fn named<'a>(
    alloc: Global,
    asked: Request<'_, 'a>,
    bindings: &Bindings<'_, '_, 'a>,
) -> Result<Names<'a>, LinkFault>
    requires few { length bindings.now.startup < 2 ^ 32 - 1 }
    requires each { length asked.sites.now ≡ length asked.objects.now }
    requires sites { (o : ℕ) → o < length asked.objects.now → AreSites (object_at asked.objects.now o)
        (slice_index_or (map (λ own. own.items) asked.sites.now) o []) }
    requires objects { bindings.now.objects ≡ asked.objects.now }
    requires resolved { AreResolved asked.objects.now bindings.now.startup }
    requires kind { FitsKind asked.objects.now asked.kind }
    requires lawful { IsLawful (layout_of asked.kind asked.objects.now) }
    ensures prepared { IfOk result (λ names. ArePrepared (link_asked asked.entry bindings.now.startup)
        names.own.items (map (λ name. name.now) names.imports.keys)) }
    ensures fault { IfErr result (IsLinkFault (link_asked asked.entry bindings.now.startup)) }
{
    let objects = asked.objects;
    let few = has_few_relocations(objects);
    let own = defined_symbols(alloc, objects, bindings)?;
    let imports = imports(alloc, objects, bindings, asked.sites)?;
    if !few || !names_fit(objects, own.as_slice(), imports.as_slice()) {
        return Err(too_large());
    }
    Ok(Names { own, imports })
}

/// How far below the thread pointer the block begins. The fault is that code asks for thread-local storage and finds
/// none.
fn storage(
    alloc: Global,
    objects: &[Object],
    bindings: &Bindings,
    kind: ImageKind,
    placement: &Placement,
) -> Result<u64, LinkFault>
    requires { bindings.now.objects ≡ objects.now }
    ensures offset { IfOk result (λ offset. offset
        ≡ round_up (tls_size placement.now.sections) (tls_alignment placement.now.sections)) }
    ensures fits { OnOk result
        (FitsStorage bindings.now.objects bindings.now.startup kind (tls_size placement.now.sections)) }
    ensures fault { IfErr result
        (LacksStorage bindings.now.objects bindings.now.startup kind (tls_size placement.now.sections)) }
{
    ask_tls(objects, bindings, kind, placement.tls_size())?;
    Ok(block_offset(alloc, placement)?)
}

/// A link of these inputs, with its offset table laid out. Fails only when memory runs out.
fn planned<'l, 's, 'a, R: Threads + Sync>(
    rt: &R,
    alloc: Global,
    inputs: Inputs<'l, 's, 'a>,
    names: Names<'a>,
) -> Result<ReadyLink<'l, 's, 'a>, AllocError>
    requires prepared { ArePrepared inputs names.own.items (map (λ name. name.now) names.imports.keys) }
    requires sound { IsSound inputs }
    ensures { IfOk result (λ ready. ready ≡ inputs.entry) }
{
    let plan = plan_of(rt, alloc, inputs)?;
    let tables = Tables {
        plan,
        own: names.own,
        imports: names.imports,
    };
    Ok(ReadyLink { tables })
}

/// A ready link of what is asked for with these bindings, which the image's kind admits. The error is the first fault
/// of those that remain, except `Overflow`.
fn within_limits<'l, 's, 'a, R: Threads + Sync>(
    rt: &R,
    alloc: Global,
    asked: Request<'l, 'a>,
    bindings: Bindings<'l, 's, 'a>,
) -> Result<ReadyLink<'l, 's, 'a>, LinkFault>
    requires few { length bindings.startup < 2 ^ 32 - 1 }
    requires each { length asked.sites.now ≡ length asked.objects.now }
    requires sites { (o : ℕ) → o < length asked.objects.now → AreSites (object_at asked.objects.now o)
        (slice_index_or (map (λ own. own.items) asked.sites.now) o []) }
    requires objects { bindings.objects ≡ asked.objects.now }
    requires resolved { AreResolved asked.objects.now bindings.startup }
    requires kind { FitsKind asked.objects.now asked.kind }
    ensures ready { IfOk result (λ ready. ready ≡ link_asked asked.entry bindings.entry.startup) }
    ensures sound { OnOk result (IsSound (link_asked asked.entry bindings.entry.startup)) }
    ensures fault { IfErr result (IsLinkFault (link_asked asked.entry bindings.entry.startup)) }
{
    let Request {
        objects,
        sites,
        kind,
        relax,
    } = asked;
    let placement = place(alloc, objects, kind)?;
    let names = named(alloc, asked, &bindings)?;
    let block_offset = storage(alloc, objects, &bindings, kind, &placement)?;
    let inputs = Inputs {
        kind,
        relax,
        objects,
        sites,
        bindings,
        placement,
        block_offset,
    };
    let ready = planned(rt, alloc, inputs, names)?;
    Ok(ready)
}

/// Makes a link of objects ready, beside startup images that export these names. The error is the first fault, except
/// `Overflow`. No byte of the image is written.
pub fn prepare<'l, 's, 'a, R: Threads + Sync>(
    rt: &R,
    alloc: Global,
    objects: &'l [Object<'a>],
    sites: &'l [Vec<Site>],
    kind: ImageKind,
    startup: &'s [Exports<'a>],
    relax: bool,
) -> Result<ReadyLink<'l, 's, 'a>, LinkFault>
    requires few { length startup.now < 2 ^ 32 - 1 }
    requires each { length sites.now ≡ length objects.now }
    requires sites { (o : ℕ) → o < length objects.now
        → AreSites (object_at objects.now o) (slice_index_or (map (λ own. own.items) sites.now) o []) }
    ensures ready { IfOk result (λ ready. ready ≡ link_of objects.now sites.now kind startup.now relax) }
    ensures sound { OnOk result (IsSound (link_of objects.now sites.now kind startup.now relax)) }
    ensures fault { IfErr result (IsLinkFault (link_of objects.now sites.now kind startup.now relax)) }
{
    let bindings = resolve(alloc, objects, startup)?;
    ask_kind(objects, kind)?;
    let asked = Request {
        objects,
        sites,
        kind,
        relax,
    };
    within_limits(rt, alloc, asked, bindings)
}

/// A link without the names of its dynamic tables.
fn plan_in<'l, 's, 'a>(tables: Tables<'l, 's, 'a>) -> Plan<'l, 's, 'a>
    ensures { result ≡ tables.entry }
{
    let Tables {
        plan,
        own: _,
        imports: _,
    } = tables;
    plan
}

impl<'l, 's, 'a> ReadyLink<'l, 's, 'a> {
    /// The inputs of the link, for a caller that wants no byte of the image.
    pub fn into_inputs(self) -> Inputs<'l, 's, 'a>
        ensures { result ≡ self.entry }
    {
        let ReadyLink { tables } = self;
        plan_in(tables).into_inputs()
    }

    /// Which sequence takes the place of each site's, for a caller that wants no byte of the image.
    pub fn into_choices(self) -> Vec<Vec<Choice>>
        ensures { map (λ own. own.items) result.items ≡ choices_from self.entry 0 self.entry.sites }
    {
        let ReadyLink { tables } = self;
        plan_in(tables).into_choices()
    }
}
