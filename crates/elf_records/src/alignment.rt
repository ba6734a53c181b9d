//! Alignments of loaded sections and segments (gABI, "Sections" and "Program Header").

ghost use Rattle.std.specs.Prelude.{◌↔◌, IsTrue};
ghost use Rattle.elf_records.specs.Alignments.{IsAlignment};

/// How many bytes a page has. It is the greatest alignment that is accepted.
pub const PAGE: u64 = 4_096;

/// Whether this is an alignment: a power of two up to 4,096.
#[tactic(auto, using(crate::proofs::Powers::alignment_of, crate::proofs::Powers::alignment_small, crate::proofs::Powers::alignment_bits))]
pub fn is_alignment(alignment: u64) -> bool
    ensures { IsTrue result ↔ IsAlignment alignment }
{
    alignment <= PAGE && alignment.is_power_of_two()
}
