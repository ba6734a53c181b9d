//! Ranges of addresses, and rounding up.

ghost use Rattle.std.specs.Prelude.{◌≡◌, ◌+◌, ◌<◌, ◌≤◌, ◌^◌};
ghost use Rattle.tls_layout.specs.Rounding.{round_up as rounded_up, page_up as page_after};

use elf_records::alignment::PAGE;

/// Addresses from `start` up to `end`, without `end`.
#[derive(Clone, Copy, PartialEq, Eq, Debug)]
pub struct Extent {
    pub start: u64,
    pub end: u64,
}

/// The least multiple of an alignment at or above an address or offset.
#[tactic(auto, unfolding(crate::specs::Rounding::round_up))]
pub fn round_up(from: u64, alignment: u64) -> u64
    requires positive { 0 < alignment }
    requires fits { from + alignment ≤ 2 ^ 64 }
    ensures place { result ≡ rounded_up from alignment }
    ensures above { from ≤ result }
    ensures near { result < from + alignment }
{
    from.next_multiple_of(alignment)
}

/// The first page that begins at or after an address.
#[tactic(auto, unfolding(crate::specs::Rounding::page_up))]
pub fn page_up(address: u64) -> u64
    requires { address < 2 ^ 32 }
    ensures page { result ≡ page_after address }
    ensures near { result < address + 4096 }
{
    round_up(address, PAGE)
}
