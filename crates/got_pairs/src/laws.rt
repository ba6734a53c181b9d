//! Laws of tables. The functions do nothing: what they ensure is the law.

ghost use Rattle.got_pairs.specs.Laws.{EntriesAreNeeded, EntriesDiffer, GroupsStandInOrder, NeedsHaveEntries};

/// Each need has an entry.
pub fn needs_have_entries()
    ensures { NeedsHaveEntries }
{}

/// Each entry serves a need.
pub fn entries_are_needed()
    ensures { EntriesAreNeeded }
{}

/// Entries differ: equal needs share an entry.
pub fn entries_differ()
    ensures { EntriesDiffer }
{}

/// Groups are in order: no entry comes after one of a later group.
pub fn groups_stand_in_order()
    ensures { GroupsStandInOrder }
{}
