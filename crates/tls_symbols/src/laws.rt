//! Laws of names. The functions do nothing; each `ensures` a law.

ghost use Rattle.tls_symbols.specs.Laws.{ExportsAreByName};

/// An image exports exactly the names whose definition in it, the first GLOBAL one or else the first WEAK one, is
/// thread-local and visible to other images.
pub fn exports_are_by_name()
    ensures { ExportsAreByName }
{}
