//! Laws of spelling, for proofs about code that is read in parts.
//!
//! Each is a function that does nothing; its clause is the law.

ghost use Rattle.std.specs.Prelude.{◌≡◌, ◌≤◌, ◌++◌, ◌↔◌, ℕ, true, false, List, Some, None, length, take};
ghost use Rattle.amd64_subset.specs.declared.instr.Decoded.{Decoded};
ghost use Rattle.amd64_subset.specs.Beginning.{begins_of};
ghost use Rattle.amd64_subset.specs.BeginningLaws.{BeginsSpelling};
ghost use Rattle.amd64_subset.specs.Decoding.{decoded};
ghost use Rattle.amd64_subset.specs.Spelling.{Spells, IsPlaced, field_of, with_displacement, with_immediate};

/// No spelling is a proper prefix of another, and bytes spell at most one instruction: two spellings that begin the
/// same list are equal.
pub fn one_spelling()
    ensures { (a b x y : List ℕ) (d e : Decoded) → Spells a d → Spells b e → a ++ x ≡ b ++ y → (a ≡ b) × (d ≡ e) }
{}

/// Bytes that spell an instruction are decoded to it, whatever follows.
pub fn spelled()
    ensures { (bytes tail : List ℕ) (d : Decoded) → Spells bytes d → decoded (bytes ++ tail) ≡ Some d }
{}

/// Decoding depends on the instruction's own bytes alone.
pub fn front()
    ensures { (bytes tail : List ℕ) (d : Decoded)
        → decoded bytes ≡ Some d → decoded (take d.len bytes ++ tail) ≡ Some d }
{}

/// An instruction has 1 to 15 bytes, all of them present, and its fields lie in them.
pub fn inside()
    ensures length { (bytes : List ℕ) (d : Decoded) → decoded bytes ≡ Some d → d.len ≤ length bytes }
    ensures placed { (bytes : List ℕ) (d : Decoded) → decoded bytes ≡ Some d → IsPlaced d }
{}

/// With other four bytes in its displacement field, the same instruction is decoded except for that number.
pub fn displacement_field()
    ensures number { (bytes four tail : List ℕ) (d : Decoded) → length four ≡ 4
        → decoded (bytes ++ (four ++ tail)) ≡ Some d → d.disp ≡ Some (length bytes)
        → d.instr.displacement ≡ field_of four }
    ensures other { (bytes four other tail : List ℕ) (d : Decoded) → length four ≡ 4 → length other ≡ 4
        → decoded (bytes ++ (four ++ tail)) ≡ Some d → d.disp ≡ Some (length bytes)
        → decoded (bytes ++ (other ++ tail)) ≡ Some (with_displacement (field_of other) d) }
{}

/// With other four bytes in its immediate field, the same instruction is decoded except for that number.
pub fn immediate_field()
    ensures number { (bytes four tail : List ℕ) (d : Decoded) → length four ≡ 4
        → decoded (bytes ++ (four ++ tail)) ≡ Some d → d.imm ≡ Some (length bytes)
        → d.instr.immediate ≡ field_of four }
    ensures other { (bytes four other tail : List ℕ) (d : Decoded) → length four ≡ 4 → length other ≡ 4
        → decoded (bytes ++ (four ++ tail)) ≡ Some d → d.imm ≡ Some (length bytes)
        → decoded (bytes ++ (other ++ tail)) ≡ Some (with_immediate (field_of other) d) }
{}

/// Bytes that neither hold nor begin an instruction do not hold one, whatever follows.
pub fn none()
    ensures { (bytes tail : List ℕ) → decoded bytes ≡ None → begins_of bytes ≡ false → decoded (bytes ++ tail) ≡ None }
{}

/// `BeginsSpelling` as a function of a list.
pub fn beginning()
    ensures { (bytes : List ℕ) → (begins_of bytes ≡ true) ↔ BeginsSpelling bytes }
{}
