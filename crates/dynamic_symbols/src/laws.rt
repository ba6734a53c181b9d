//! Laws of dynamic symbols. The functions do nothing; each `ensures` a law.

ghost use Rattle.dynamic_symbols.specs.Laws.{BindingsAreByUse, ImportsAreDistinct, ImportsAreForeign};
ghost use Rattle.dynamic_symbols.specs.Laws.{NamesAreDistinct, SitesHaveSymbols, SymbolsAreShared};
ghost use Rattle.dynamic_symbols.specs.Laws.{SymbolsHaveTheNames};

/// Every defined symbol is in the objects, and is neither LOCAL nor undefined.
pub fn symbols_are_shared()
    ensures { SymbolsAreShared }
{}

/// The names of the defined symbols are the names that the objects define, in the order of their first definitions.
pub fn symbols_have_the_names()
    ensures { SymbolsHaveTheNames }
{}

/// No two defined symbols have one name.
pub fn names_are_distinct()
    ensures { NamesAreDistinct }
{}

/// No two imports are the same.
pub fn imports_are_distinct()
    ensures { ImportsAreDistinct }
{}

/// The image defines none of its imports, and `__tls_get_addr` is no import.
pub fn imports_are_foreign()
    ensures { ImportsAreForeign }
{}

/// What the symbol of a relocation is bound to depends on the relocation's type and symbol alone.
pub fn bindings_are_by_use()
    ensures { BindingsAreByUse }
{}

/// Each site of an object uses a symbol of that object.
pub fn sites_have_symbols()
    ensures { SitesHaveSymbols }
{}
