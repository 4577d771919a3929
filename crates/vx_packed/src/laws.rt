//! What holds of the spellings of numbers.
ghost use Rattle.std.specs.Prelude.{◌≡◌, ℕ, ◌%◌, ◌^◌, ◌<◌, ◌≤◌, None, List, [], ◌++◌, length};
ghost use Rattle.std.specs.List.{All};
ghost use Rattle.vx_packed.specs.Chunk.{IsChunk, IsPacked, IsSpelling, spell, spell_list};
ghost use Rattle.vx_packed.specs.Faults.{chunk_fault};
ghost use Rattle.vx_packed.specs.Parts.{first_bad, parts_of};

/// Numbers have one spelling, no spelling of a chunk is the front of another's, and spellings
/// break no rule.
#[tactic(auto, using(crate::proofs::OneSpelling::one_spelling, crate::proofs::OneSpelling::no_prefix, crate::proofs::CutParts::spell_list_injective, crate::proofs::CutParts::packed_good, crate::proofs::OneSpelling::spelling_good))]
pub fn spelling_law()
    ensures one { (xs ys : List ℕ) → IsChunk 8 xs → IsChunk 8 ys → spell xs ≡ spell ys → xs ≡ ys }
    ensures no_prefix { (xs ys more : List ℕ) → IsChunk 8 xs → IsChunk 8 ys
        → spell xs ++ more ≡ spell ys → more ≡ [] }
    ensures lists { (xs ys : List ℕ) → length xs % 1024 ≡ 0 → length ys % 1024 ≡ 0
        → All (λ x. x < 2 ^ 64) xs → All (λ x. x < 2 ^ 64) ys
        → spell_list xs ≡ spell_list ys → xs ≡ ys }
    ensures chunk { (width : ℕ) (bytes : List ℕ) → width ≤ 8 → IsSpelling width bytes
        → chunk_fault width bytes ≡ None }
    ensures packed { (width : ℕ) (bytes : List ℕ) → width ≤ 8 → IsPacked width bytes
        → first_bad width 0 (parts_of bytes) ≡ None }
{}
