//! The laws. The functions do nothing: what they ensure is the law.

ghost use Rattle.binding_laws.specs.Laws.{BindingsAreOnly, UnboundIsUndefined};

/// What a symbol is bound to is the only thing that the relation allows, and nothing exactly where it allows nothing.
pub fn bindings_are_only()
    ensures { BindingsAreOnly }
{}

/// The fault Undefined stands exactly at the kept relocations, but those of type NONE, that are bound to nothing.
pub fn unbound_is_undefined()
    ensures { UnboundIsUndefined }
{}
