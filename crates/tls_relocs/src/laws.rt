//! Laws of what this crate defines: each function's contract is the law, and its body is empty.

ghost use Rattle.std.specs.Prelude.{◌≡◌, ◌↔◌, ◌≤◌, ◌-◌, ℕ, ℤ, pos, List, length, slice_get, Some, IsSome, FitsSigned};
ghost use Rattle.std.specs.Int.{w32, cast_signed, FitsUnsignedBits};
ghost use Rattle.tls_relocs.specs.declared.fields.Field.TheVariants.{Word32};
ghost use Rattle.tls_relocs.specs.Laid.{Placed, laid, unit_at, Rising};
ghost use Rattle.tls_relocs.specs.Patches.{Patch, patched, byte_of, FitIn};
ghost use Rattle.tls_relocs.specs.Values.{signed_field, unsigned_field};

/// A signed field holds exactly the numbers of an `i32`.
#[tactic(auto, using(crate::specs::ValueLaws::signed_fits))]
pub fn signed_fields_take_an_i32()
    ensures { (z : ℤ) → IsSome (signed_field z) ↔ FitsSigned w32 z }
{}

/// An unsigned field holds exactly the numbers of a `u32`.
#[tactic(auto, using(crate::specs::ValueLaws::unsigned_fits))]
pub fn unsigned_fields_take_a_u32()
    ensures { (z : ℤ) → IsSome (unsigned_field z) ↔ FitsUnsignedBits 32 z }
{}

/// A signed field, read in two's complement, gives the value that was stored.
#[tactic(auto, using(crate::specs::ValueLaws::signed_again))]
pub fn signed_fields_read_back()
    ensures { (z : ℤ) (w : ℕ) → signed_field z ≡ Some (Word32 w) → cast_signed w32 w ≡ z }
{}

/// An unsigned field, read as an unsigned number, gives the value that was stored.
#[tactic(auto, using(crate::specs::ValueLaws::unsigned_again))]
pub fn unsigned_fields_read_back()
    ensures { (z : ℤ) (w : ℕ) → unsigned_field z ≡ Some (Word32 w) → pos w ≡ z }
{}

/// Patches do not change the number of bytes.
#[tactic(auto, using(crate::specs::PatchLaws::patched_keeps))]
pub fn patches_keep_the_length()
    ensures { (ps : List Patch) (bytes : List ℕ) → FitIn ps (length bytes)
        → length (patched ps bytes) ≡ length bytes }
{}

/// After patches, one splice after another, each place has the byte that a reader expects there.
#[tactic(auto, using(crate::specs::PatchLaws::patched_bytes))]
pub fn patches_are_read_back()
    ensures { (ps : List Patch) (bytes : List ℕ) (k : ℕ) → FitIn ps (length bytes)
        → slice_get (patched ps bytes) k ≡ byte_of ps bytes k }
{}

/// In parts that are laid out with zeros in the gaps, each place has the byte that a reader expects there.
#[tactic(auto, using(crate::specs::LaidLaws::laid_bytes))]
pub fn laid_parts_are_read_back()
    ensures { (at : ℕ) (parts : List Placed) (place : ℕ) → Rising at parts → at ≤ place
        → slice_get (laid at parts) (place - at) ≡ unit_at parts place }
{}
