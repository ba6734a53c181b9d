//! A law about instructions that can be written: a function that does nothing, whose clause is the law.

ghost use Rattle.std.specs.Prelude.{◌≡◌, ◌<◌, ◌^◌, ℕ, List, Some, slice_index};
ghost use Rattle.amd64_subset.specs.declared.instr.Decoded.{Decoded};
ghost use Rattle.amd64_subset.specs.Decoding.{decoded};
ghost use Rattle.amd64_encoder.specs.Canonical.{IsSpellable};

/// What was decoded has a spelling, so `encode` accepts it.
pub fn spellable()
    ensures { (bytes : List ℕ) (d : Decoded) → ((i : ℕ) → slice_index bytes i < 2 ^ 8)
        → decoded bytes ≡ Some d → IsSpellable d.instr }
{}
