//! What the dynamic tables of an image are made from.

use indexmap::IndexSet;
use link_faults::SymbolRef;
use link_needs::Plan;
use std::marker::Model;

/// A link whose offset table is laid out, with the names of its dynamic tables. Contracts see what the link is made
/// from.
#[derive(Drop)]
pub struct Tables<'l, 's, 'a> {
    pub plan: Plan<'l, 's, 'a>,
    /// The symbols that the image defines for others.
    pub own: Vec<SymbolRef>,
    /// The names that it imports.
    pub imports: IndexSet<&'a [u8]>,
}

impl<'l, 's, 'a> Model for Tables<'l, 's, 'a> {
    ghost use Rattle.std.specs.Prelude.{map};
    ghost use Rattle.link_needs.specs.Linking.{Linking};
    ghost use Rattle.link_tables.specs.FaultLaws.{ArePrepared};

    ghost Value = { Linking };

    ghost view = { λ tables. tables.plan };

    ghost invariant = { λ tables. ArePrepared
        tables.plan tables.own.items (map (λ name. name.now) tables.imports.keys) };
}
