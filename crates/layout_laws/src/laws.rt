//! Laws of layouts. Each function does nothing; what it ensures is the law.

ghost use Rattle.layout_laws.specs.Layout.{AddressesAreOnly, BlocksAreOnly, OffsetsAreOnly, PositionsAreInOrder};
ghost use Rattle.layout_laws.specs.Layout.{RoomIsLeast, SegmentsAreLeast};

/// Each section with an address lies at the least one that those before it leave, and there is no other placement.
pub fn addresses_are_only()
    ensures { AddressesAreOnly }
{}

/// Each thread-local section lies so in the TLS segment, and there is no other placement.
pub fn offsets_are_only()
    ensures { OffsetsAreOnly }
{}

/// Sections are numbered in the order of objects, and in an object by their own numbers.
pub fn positions_are_in_order()
    ensures { PositionsAreInOrder }
{}

/// The room begins on the first page past all sections.
pub fn room_is_least()
    ensures { RoomIsLeast }
{}

/// Each block below a thread pointer begins at the least distance that those before it leave, and there are no others.
pub fn blocks_are_only()
    ensures { BlocksAreOnly }
{}

/// The TLS segment has the least size that holds its sections, and the greatest alignment that one asks for.
pub fn segments_are_least()
    ensures { SegmentsAreLeast }
{}
