//! What a symbol is bound to.

use crate::symbol_ref::SymbolRef;

/// What a symbol that a relocation names is bound to.
#[derive(Clone, Copy, PartialEq, Eq, Debug)]
pub enum Binding {
    /// A symbol of the image itself.
    Here(SymbolRef),
    /// The symbol of that name that a startup image exports: 1 is the program, and from 2 on come the modules
    /// that are loaded with it.
    Startup(u32),
    /// The run time's function, `__tls_get_addr`.
    Runtime,
}
