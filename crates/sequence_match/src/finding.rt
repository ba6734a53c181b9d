//! Finds the sites of an object, or its first fault, in one walk over its sections. Sections whose relocations have
//! nothing to do with sequences are skipped.

ghost use Rattle.std.specs.Prelude.{◌≡◌, ◌↔◌, ◌+◌, ◌++◌, ◌<◌, ◌≤◌, ◌^◌, ℕ, IsTrue, IfOk, IfErr, IfSome, OnOk, length};
ghost use Rattle.std.specs.List.{list_any};
ghost use Rattle.std.specs.List.Sorted.{IsNonDecreasingBy, IsPermutation};
ghost use Rattle.object_rules.specs.declared.fault.FaultKind.TheVariants.{Sequence, StrayCall};
ghost use Rattle.object_rules.specs.declared.fault.ObjectFault.TheVariants.{At};
ghost use Rattle.elf_object.specs.Faults.{Earlier, IsFirstAt, IsObject};
ghost use Rattle.elf_object.specs.Lent.{relocations as relocations_in_file};
ghost use Rattle.sequence_match.specs.Code.{AreOrdered, HasSite, IsNoFirst, IsReady};
ghost use Rattle.sequence_match.specs.Faults.{AreSites, IsFault, IsGetter, Nowhere, StandsOf};
ghost use Rattle.sequence_match.specs.Faults.{code_of as bytes_of};
ghost use Rattle.sequence_match.specs.Finding.{AreFindings, AreFindingsIn, AreGetters, AreSitesIn, IsFirstBelow, IsLeastBelow};
ghost use Rattle.sequence_match.specs.Finding.{IsLooseIn, IsLower, IsStrayIn, IsSurvey, is_use, kind_of};

use crate::index::{Reach, index};
use crate::matching::{
    Code, Indexes, form_of, is_loose, is_of_sequence, is_stray, names_getter, site_at,
};
use crate::near::rise;
use elf_object::{FaultKind, Object, ObjectFault, Relocation, Relocs, SectionClass, SymbolPlace};
use elf_records::symbol::GET_ADDRESS_NAME;
use sequence_forms::Site;
use std::alloc::{AllocError, Global};

/// A kind of fault that this module checks.
#[derive(Clone, Copy)]
enum Asked {
    /// A relocation that belongs in a sequence and opens none.
    Loose,
    /// A use of the undefined `__tls_get_addr` outside a sequence.
    Stray,
}

/// An entry of a section of relocations.
#[derive(Clone, Copy)]
struct Spot {
    table: u32,
    entry: u32,
}

/// The findings in a section.
#[derive(Drop)]
struct Findings {
    /// Its sequences, rising.
    sites: Vec<Site>,
    /// The first of its relocations that is a `Loose`.
    loose: Option<u32>,
    /// The first of its relocations that is a `Stray`.
    stray: Option<u32>,
}

/// The findings in an object.
#[derive(Drop)]
struct Survey {
    /// Its sequences, rising.
    sites: Vec<Site>,
    /// The first entry that is a `Loose`.
    loose: Option<Spot>,
    /// The first entry that is a `Stray`.
    stray: Option<Spot>,
}

/// Whether a symbol is `__tls_get_addr`, and the object does not define it.
fn is_getter(object: &Object, number: u32) -> bool
    ensures { IsTrue result ↔ IsGetter object.now number }
{
    let Some(part) = object.symbol(number) else {
        return false;
    };
    match part.place {
        SymbolPlace::Undefined => match object.short_symbol_name(number, GET_ADDRESS_NAME.len()) {
            Some(name) => name == GET_ADDRESS_NAME,
            None => false,
        },
        _ => false,
    }
}

/// For each symbol, whether it is `__tls_get_addr` and the object does not define it.
fn find_getters(alloc: Global, object: &Object) -> Result<Vec<bool>, AllocError>
    ensures { IfOk result (λ getters. AreGetters object.now getters.items) }
{
    let mut getters = Vec::new(alloc);
    for number in 0..object.symbol_count() {
        getters.push(is_getter(object, number))?;
    }
    Ok(getters)
}

/// The bytes of a section, if it is executable.
#[tactic(auto, using(crate::proofs::Sections::code_past), unfolding(crate::specs::Faults::code_of))]
fn code_of<'a>(object: &Object<'a>, section: u32) -> &'a [u8]
    ensures bytes { result.now ≡ bytes_of object.now section }
    ensures object { IsObject object.now }
{
    match object.section(section) {
        Some(part) => match part.class {
            Some(SectionClass::Executable) => part.bytes,
            _ => &[],
        },
        None => &[],
    }
}

/// Whether a relocation can be part of a sequence, or a fault of this module.
fn is_use(getters: &[bool], relocation: &Relocation) -> bool
    ensures { result ≡ is_use getters.now relocation.now }
{
    is_of_sequence(relocation.kind) || names_getter(getters, relocation.symbol)
}

/// Whether a section has such a relocation.
fn has_use(object: &Object, getters: &[bool], section: u32) -> bool
    ensures { result ≡ list_any (is_use getters.now) (relocations_in_file object.now section) }
{
    object
        .relocs(section)
        .any(|relocation| is_use(getters, &relocation))
}

impl Asked {
    fn kind(self) -> FaultKind
        ensures { result ≡ kind_of self }
    {
        match self {
            Asked::Loose => FaultKind::Sequence,
            Asked::Stray => FaultKind::StrayCall,
        }
    }
}

/// The first relocation up to this one, which opens no sequence, that is a `Loose`. `loose` is the first one before it.
fn loose_up_to(code: &Code, entry: u32, loose: Option<u32>) -> Option<u32>
    requires none { IsNoFirst code.now entry }
    requires entry { entry < length code.now.relocations.now }
    requires before { IsLeastBelow (IsLooseIn code.now) entry loose }
    ensures { IsLeastBelow (IsLooseIn code.now) (entry + 1) result }
{
    match loose {
        Some(first) => Some(first),
        None if is_loose(code, entry) => Some(entry),
        None => None,
    }
}

/// The first relocation up to this one that is a `Stray`. `stray` is the first one before it, and `known` the last
/// sequence that was opened before it.
fn stray_up_to(code: &Code, entry: u32, known: Option<&Site>, stray: Option<u32>) -> Option<u32>
    requires ready { IsReady code.now }
    requires entry { entry < length code.now.relocations.now }
    requires known { IfSome known (λ site. HasSite code.now site.now) }
    requires before { IsLeastBelow (IsStrayIn code.now) entry stray }
    ensures { IsLeastBelow (IsStrayIn code.now) (entry + 1) result }
{
    match stray {
        Some(first) => Some(first),
        None if is_stray(code, entry, known) => Some(entry),
        None => None,
    }
}

/// The findings in code, with sequences in the order of their first relocations. Each relocation is matched once: one
/// that opens a sequence is not loose, and the second one of a sequence usually stands next to the first.
fn openings_in(alloc: Global, code: &Code) -> Result<Findings, AllocError>
    requires { IsReady code.now }
    ensures sites { IfOk result (λ openings. AreSitesIn code.now openings.sites.items) }
    ensures loose { IfOk result (λ openings. IsFirstAt (IsLooseIn code.now) openings.loose) }
    ensures stray { IfOk result (λ openings. IsFirstAt (IsStrayIn code.now) openings.stray) }
{
    let mut sites = Vec::with_capacity(alloc, code.relocations.len() as usize)?;
    let mut loose = None;
    let mut stray = None;
    for entry in 0..code.relocations.len() as u32 {
        stray = stray_up_to(code, entry, sites.last(), stray);
        match form_of(code, entry) {
            Some(form) => sites.push(site_at(code, form, entry))?,
            None => loose = loose_up_to(code, entry, loose),
        }
    }
    Ok(Findings {
        sites,
        loose,
        stray,
    })
}

/// Whether sites rise by their starts.
fn are_rising(sites: &[Site]) -> bool
    ensures { IsTrue result ↔ IsNonDecreasingBy (λ site. site.start) sites.now }
{
    for index in 1..sites.len() {
        if sites[index].start < sites[index - 1].start {
            return false;
        }
    }
    true
}

/// Sites, sorted by their starts. Those of a compiler's relocations are sorted already.
fn rising(mut sites: Vec<Site>) -> Result<Vec<Site>, AllocError>
    ensures permutation { IfOk result (λ sorted. IsPermutation sites.items sorted.items) }
    ensures rising { IfOk result (λ sorted. IsNonDecreasingBy (λ site. site.start) sorted.items) }
{
    if are_rising(&sites) {
        return Ok(sites);
    }
    sites.sort_by_key(|site| site.start)?;
    Ok(sites)
}

/// The findings in code.
fn find_in_code(alloc: Global, code: &Code) -> Result<Findings, AllocError>
    requires { IsReady code.now }
    ensures { IfOk result (AreFindingsIn code.now) }
{
    let Findings {
        sites: unsorted,
        loose,
        stray,
    } = openings_in(alloc, code)?;
    let sites = rising(unsorted)?;
    Ok(Findings {
        sites,
        loose,
        stray,
    })
}

/// The findings in a section, from all of its relocations, which rise as they stand or have indexes.
fn search_with(
    alloc: Global,
    object: &Object,
    getters: &[bool],
    section: u32,
    relocations: &Relocs,
    indexes: Option<Indexes>,
) -> Result<Findings, AllocError>
    requires getters { AreGetters object.now getters.now }
    requires relocations { relocations.now ≡ relocations_in_file object.now section }
    requires few { length relocations.now ≤ 2 ^ 20 }
    requires ordered { AreOrdered relocations.now indexes }
    ensures { IfOk result (AreFindings object.now section) }
{
    let code = Code {
        section,
        bytes: code_of(object, section),
        relocations,
        getters,
        indexes,
    };
    let findings = find_in_code(alloc, &code)?;
    Ok(findings)
}

/// The findings in a section, from all of its relocations. They get indexes only if they do not rise as they stand.
fn search_section(
    alloc: Global,
    object: &Object,
    getters: &[bool],
    section: u32,
) -> Result<Findings, AllocError>
    requires { AreGetters object.now getters.now }
    ensures { IfOk result (AreFindings object.now section) }
{
    // Sequences are known before names are bound, and are found section by section.
    let relocations = object.relocs(section);
    if rise(&relocations) {
        return search_with(alloc, object, getters, section, &relocations, None);
    }
    let fields = index(alloc, Reach::OfField, &relocations)?;
    let calls = index(alloc, Reach::OfCall, &relocations)?;
    let indexes = Indexes {
        fields: fields.as_slice(),
        calls: calls.as_slice(),
    };
    search_with(alloc, object, getters, section, &relocations, Some(indexes))
}

/// The findings in a section. Only a section with a use is searched.
fn find_in_section(
    alloc: Global,
    object: &Object,
    getters: &[bool],
    section: u32,
) -> Result<Findings, AllocError>
    requires { AreGetters object.now getters.now }
    ensures { IfOk result (AreFindings object.now section) }
{
    if has_use(object, getters, section) {
        return search_section(alloc, object, getters, section);
    }
    Ok(Findings {
        sites: Vec::new(alloc),
        loose: None,
        stray: None,
    })
}

impl Spot {
    /// Whether the entry lies in a lower section than the other, or lower in the same section.
    fn is_before(self, other: Spot) -> bool
        ensures { IsTrue result ↔ Earlier self.table self.entry other.table other.entry }
    {
        self.table < other.table || (self.table == other.table && self.entry < other.entry)
    }

    /// The fault at the entry.
    fn fault(self, kind: FaultKind) -> ObjectFault
        ensures { result ≡ At self.table self.entry kind }
    {
        ObjectFault::At {
            section: u64::from(self.table),
            entry: u64::from(self.entry),
            kind,
        }
    }
}

/// The lower one of two entries.
fn lower(first: Option<Spot>, second: Spot) -> Spot
    ensures { IsLower first second result }
{
    match first {
        Some(first) if !second.is_before(first) => first,
        _ => second,
    }
}

/// The first entry, in the tables of the sections up to this one, at which the kind stands. `first` is that of the
/// sections before it, and `entry` the first of this section's relocations.
fn first_with(
    object: &Object,
    section: u32,
    asked: Asked,
    first: Option<Spot>,
    entry: Option<u32>,
) -> Option<Spot>
    requires before { IsFirstBelow (kind_of asked) object.now section first }
    requires here { IsFirstAt (StandsOf (kind_of asked) object.now section) entry }
    ensures { IsFirstBelow (kind_of asked) object.now (section + 1) result }
{
    let Some(table) = object.relocation_table(section) else {
        return first;
    };
    match entry {
        Some(entry) => Some(lower(first, Spot { table, entry })),
        None => first,
    }
}

/// The sites of both lists, one list after the other.
fn joined(mut sites: Vec<Site>, others: Vec<Site>) -> Result<Vec<Site>, AllocError>
    ensures { IfOk result (λ all. all.items ≡ sites.items ++ others.items) }
{
    if sites.len() == 0 {
        return Ok(others);
    }
    sites.extend_from_slice(&others)?;
    Ok(sites)
}

/// Goes through all sections.
fn find_all(alloc: Global, object: &Object, getters: &[bool]) -> Result<Survey, AllocError>
    requires { AreGetters object.now getters.now }
    ensures { IfOk result (IsSurvey object.now) }
{
    let mut sites = Vec::new(alloc);
    let mut loose = None;
    let mut stray = None;
    for section in 1..object.section_count() {
        let found = find_in_section(alloc, object, getters, section)?;
        sites = joined(sites, found.sites)?;
        loose = first_with(object, section, Asked::Loose, loose, found.loose);
        stray = first_with(object, section, Asked::Stray, stray, found.stray);
    }
    Ok(Survey {
        sites,
        loose,
        stray,
    })
}

/// The sequences of an object, rising by section and start, or the first of two kinds of fault that reading an object
/// does not check: first a relocation that belongs in a sequence and opens none, at the lowest section of relocations
/// and, there, the lowest entry; then a use of the undefined `__tls_get_addr` outside a sequence, likewise.
pub fn sites(alloc: Global, object: &Object) -> Result<Vec<Site>, ObjectFault>
    ensures sites { IfOk result (λ sites. AreSites object.now sites.items) }
    ensures no_loose { OnOk result (Nowhere Sequence object.now) }
    ensures no_stray { OnOk result (Nowhere StrayCall object.now) }
    ensures fault { IfErr result (IsFault object.now) }
{
    let getters = find_getters(alloc, object)?;
    let found = find_all(alloc, object, &getters)?;
    if let Some(spot) = found.loose {
        return Err(spot.fault(FaultKind::Sequence));
    }
    if let Some(spot) = found.stray {
        return Err(spot.fault(FaultKind::StrayCall));
    }
    Ok(found.sites)
}
