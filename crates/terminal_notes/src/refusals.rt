//! Reads the line of a refused object again.
ghost use Rattle.std.specs.Prelude.{◌≡◌, IfOk, IfSome, string_bytes};
ghost use Rattle.command_replies.specs.Says.{fault_text};

use object_rules::FaultKind;
use std::alloc::{AllocError, Global};

/// What the line of a refused object says.
#[derive(Drop)]
pub struct ObjectRefusal {
    /// The object's file.
    pub name: String,
    pub section: u32,
    pub entry: u32,
    pub kind: FaultKind,
}

/// The kind with this name.
fn kind_named(name: &str) -> Option<FaultKind> {
    match name {
        "Truncated" => Some(FaultKind::Truncated),
        "NotElf" => Some(FaultKind::NotElf),
        "NotRelocatable" => Some(FaultKind::NotRelocatable),
        "SectionName" => Some(FaultKind::SectionName),
        "SectionKind" => Some(FaultKind::SectionKind),
        "SectionAlign" => Some(FaultKind::SectionAlign),
        "TooLarge" => Some(FaultKind::TooLarge),
        "SymbolTable" => Some(FaultKind::SymbolTable),
        "SymbolName" => Some(FaultKind::SymbolName),
        "SymbolSection" => Some(FaultKind::SymbolSection),
        "SymbolRange" => Some(FaultKind::SymbolRange),
        "SymbolKind" => Some(FaultKind::SymbolKind),
        "RelocTarget" => Some(FaultKind::RelocTarget),
        "RelocSymbol" => Some(FaultKind::RelocSymbol),
        "RelocKind" => Some(FaultKind::RelocKind),
        "RelocRange" => Some(FaultKind::RelocRange),
        "RelocOverlap" => Some(FaultKind::RelocOverlap),
        "Sequence" => Some(FaultKind::Sequence),
        "StrayCall" => Some(FaultKind::StrayCall),
        "WritableData" => Some(FaultKind::WritableData),
        _ => None,
    }
}

fn number_of(word: &str) -> Option<u32> {
    u32::from_str_radix(word, 10).ok()
}

/// The refusal that a line may be of: its second word is the object, its fourth the section, its sixth the entry and
/// its seventh the kind.
fn candidate(alloc: Global, line: &str) -> Option<ObjectRefusal> {
    let mut words = line.trim_end().split(' ');
    let _object = words.next()?;
    let name = words.next()?;
    let _section = words.next()?;
    let section = number_of(words.next()?)?;
    let _entry = words.next()?;
    let entry = number_of(words.next()?)?;
    let kind = kind_named(words.next()?)?;
    Some(ObjectRefusal {
        name: String::from_str(alloc, name).ok()?,
        section,
        entry,
        kind,
    })
}

/// The line of a refusal.
fn line_of(alloc: Global, refusal: &ObjectRefusal) -> Result<String, AllocError>
    ensures { IfOk result (λ line. string_bytes line
        ≡ fault_text (string_bytes refusal.now.name) refusal.now.section refusal.now.entry refusal.now.kind) }
{
    let name = refusal.name.as_str();
    let section = refusal.section;
    let entry = refusal.entry;
    let kind = refusal.kind;
    let line = format!(in alloc; "object {name} section {section} entry {entry} {kind}\n")?;
    Ok(line)
}

/// The refusal of an object that this line says. `None` if it says none, or if memory runs out.
pub fn object_refusal(alloc: Global, line: &[u8]) -> Option<ObjectRefusal>
    ensures { IfSome result (λ refusal. line.now
        ≡ fault_text (string_bytes refusal.name) refusal.section refusal.entry refusal.kind) }
{
    let refusal = candidate(alloc, str::from_utf8(line).ok()?)?;
    let again = line_of(alloc, &refusal).ok()?;
    if again.as_bytes() == line {
        Some(refusal)
    } else {
        None
    }
}
