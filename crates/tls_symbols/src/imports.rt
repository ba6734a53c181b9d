//! Whether a symbol may be another image's variable.

ghost use Rattle.std.specs.Prelude.{◌≡◌};
ghost use Rattle.elf_records.specs.RelocationRows.{is_any_variable};
ghost use Rattle.tls_symbols.specs.Bindings.{may, may_import};

use elf_object::RelocationKind;
use elf_records::relocation_row::SymbolRole;

/// Whether a symbol may be another image's variable. What the symbol is bound to depends on this, and on nothing else
/// in the relocation.
#[derive(Clone, Copy, PartialEq, Eq, Debug)]
pub enum Imports {
    Yes,
    No,
}

/// Whether a symbol that is named in this role may be another image's variable.
pub fn imports_as(role: SymbolRole) -> Imports
    ensures { may result ≡ is_any_variable role }
{
    match role {
        SymbolRole::AnyVariable => Imports::Yes,
        SymbolRole::OwnVariable | SymbolRole::Ordinary | SymbolRole::NoSymbol => Imports::No,
    }
}

/// Whether the symbol of a relocation of this type may be another image's variable.
pub fn imports_of(kind: RelocationKind) -> Imports
    ensures { may result ≡ may_import kind }
{
    imports_as(kind.row().symbol)
}
