//! What is noted of relocations when an object is read. Most questions about them are then answered without a look at
//! each.

ghost use Rattle.std.specs.Prelude.{◌≡◌, ◌++◌, ◌∷◌, ℕ, [], List, IfOk, length};
ghost use Rattle.elf_object.specs.Lent.{relocations};
ghost use Rattle.elf_object.specs.Noted.{all_relocations, has_far_addend, reaches_storage, with_role, with_traits};
ghost use Rattle.elf_object.specs.Noted.{AreNoted, AreRoles};
ghost use Rattle.elf_object.specs.Parts.{symbol_count};
ghost use Rattle.elf_object.specs.Tables.{AreTargets};
ghost use Rattle.elf_object.specs.declared.relocation.Relocation.{Relocation};

use crate::relocation::Relocation;
use crate::relocs::{relocs_in, table_of};
use elf_records::relocation_row::{FieldForm, Refused, SymbolRole, TableEntry};
use object_faults::Tables;
use std::alloc::{AllocError, Global};

/// In which roles relocations name a symbol.
#[derive(Clone, Copy)]
pub struct Roles {
    /// As a symbol that is not thread-local.
    pub ordinary: bool,
    /// As a thread-local variable of the image itself.
    pub own_variable: bool,
    /// As a thread-local variable that may be another image's.
    pub any_variable: bool,
}

/// What relocations have among them.
#[derive(Clone, Copy)]
pub struct Traits {
    /// A type that modules refuse.
    pub in_module: bool,
    /// A type that images refuse that may be loaded at any address.
    pub where_moved: bool,
    /// A type that reaches an entry for thread-local storage.
    pub reaches_storage: bool,
    /// An addend that may be too far from zero for its field.
    pub is_wide: bool,
}

/// What is noted of an object's relocations.
#[derive(Drop)]
pub struct Notes {
    /// Of each symbol.
    pub roles: Vec<Roles>,
    /// Of all of them.
    pub traits: Traits,
}

/// An addend that is nearer to zero than this fits each field of 32 bits: the addresses of an image are far lower.
const FAR: i64 = 1 << 30;

/// Whether the addend may be too far from zero for its field, wherever the symbol and the field are.
#[tactic(auto, unfolding(crate::specs::Noted::has_far_addend))]
fn is_wide(relocation: &Relocation) -> bool
    ensures { result ≡ has_far_addend relocation.now }
{
    let addend = relocation.addend;
    match relocation.kind.row().form {
        FieldForm::Signed32 => addend < -FAR || FAR <= addend,
        FieldForm::Unsigned32 => addend < 0 || FAR <= addend,
        FieldForm::NoField | FieldForm::Wrapped64 => false,
    }
}

/// Whether the field reaches an entry for thread-local storage.
fn reaches_storage(entry: TableEntry) -> bool
    ensures { result ≡ reaches_storage entry }
{
    match entry {
        TableEntry::ModulePair | TableEntry::SymbolPair => true,
        TableEntry::SymbolWord | TableEntry::Descriptor => true,
        TableEntry::NoEntry | TableEntry::AddressWord => false,
    }
}

impl Traits {
    /// Those of one relocation more.
    fn with(self, relocation: &Relocation) -> Traits
        ensures { result ≡ with_traits self relocation.now }
    {
        let row = relocation.kind.row();
        Traits {
            in_module: self.in_module | matches!(row.refused, Refused::InModule),
            where_moved: self.where_moved | matches!(row.refused, Refused::WhereMoved),
            reaches_storage: self.reaches_storage | reaches_storage(row.entry),
            is_wide: self.is_wide | is_wide(relocation),
        }
    }
}

impl Roles {
    /// Those with one more.
    fn with(self, role: SymbolRole) -> Roles
        ensures { result ≡ with_role self role }
    {
        Roles {
            ordinary: self.ordinary | matches!(role, SymbolRole::Ordinary),
            own_variable: self.own_variable | matches!(role, SymbolRole::OwnVariable),
            any_variable: self.any_variable | matches!(role, SymbolRole::AnyVariable),
        }
    }
}

/// Notes in which role a relocation names its symbol.
fn note_role(relocation: &Relocation, roles: &mut [Roles])
    ensures len { length roles.new ≡ length roles.old }
    ensures roles { (seen : List Relocation) → AreRoles seen roles.old
        → AreRoles (seen ++ relocation.now ∷ []) roles.new }
{
    let symbol = relocation.symbol as usize;
    if symbol < roles.len() {
        roles[symbol] = roles[symbol].with(relocation.kind.row().symbol);
    }
}

/// Notes the relocations of a section.
fn note_section(tables: &Tables, targets: &[u32], section: u64, notes: &mut Notes)
    requires len { length targets.now ≡ tables.now.count }
    requires found { AreTargets tables.now.bytes.now targets.now }
    ensures { (symbols : ℕ) (seen : List Relocation) → AreNoted symbols seen notes.old.roles.items notes.old.traits
        → AreNoted symbols (seen ++ relocations tables.now.bytes.now section) notes.new.roles.items notes.new.traits }
{
    for relocation in relocs_in(tables, table_of(tables, targets, section)) {
        notes.traits = notes.traits.with(&relocation);
        note_role(&relocation, &mut notes.roles);
    }
}

/// Notes all relocations of an object.
pub fn noted(alloc: Global, tables: &Tables, targets: &[u32]) -> Result<Notes, AllocError>
    requires len { length targets.now ≡ tables.now.count }
    requires found { AreTargets tables.now.bytes.now targets.now }
    ensures { IfOk result (λ notes. AreNoted (symbol_count tables.now.bytes.now)
        (all_relocations tables.now.bytes.now) notes.roles.items notes.traits) }
{
    let none = Roles {
        ordinary: false,
        own_variable: false,
        any_variable: false,
    };
    let mut notes = Notes {
        roles: vec![in alloc; none; tables.symbols.count as usize]?,
        traits: Traits {
            in_module: false,
            where_moved: false,
            reaches_storage: false,
            is_wide: false,
        },
    };
    for section in 1..tables.count {
        note_section(tables, targets, section, &mut notes);
    }
    Ok(notes)
}
