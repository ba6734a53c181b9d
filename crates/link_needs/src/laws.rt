//! Laws of what code reaches. The functions do nothing; each `ensures` a law.

ghost use Rattle.link_needs.specs.Laws.{FieldsReachEntries, NeedsHaveEntries, SitesReachEntries, StubsHaveTheirWord};

/// Each need of a link has an entry in its table.
pub fn needs_have_entries()
    ensures { NeedsHaveEntries }
{}

/// Each entry that a sequence reaches is in the table, whether the sequence is kept or rewritten. A direct call of the
/// run time that is kept has the stub.
pub fn sites_reach_entries()
    ensures { SitesReachEntries }
{}

/// Each entry that an address field reaches is in the table.
pub fn fields_reach_entries()
    ensures { FieldsReachEntries }
{}

/// If there is a stub, there is the word that it jumps through.
pub fn stubs_have_their_word()
    ensures { StubsHaveTheirWord }
{}
