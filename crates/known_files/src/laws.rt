//! What an answer tells.

ghost use Rattle.std.specs.Prelude.{◌≡◌, ◌⊎◌, ℕ, ◌<◌, max, true, List, [], ◌∷◌, drop};
ghost use Rattle.std.specs.List.{AllByRecursion};
ghost use Rattle.pcr_banks.specs.declared.alg.Alg.TheVariants as algs;
ghost use Rattle.pcr_banks.specs.declared.digest.Digest.{Digest};
ghost use Rattle.pcr_banks.specs.Names.{alg_of};
ghost use Rattle.ima_list.specs.Names.{ListEntry};
ghost use Rattle.known_files.specs.EntryFiles.{IsKnown, is_aggregate};
ghost use Rattle.known_files.specs.Listing.{IsGoodText, IsListed};
ghost use Rattle.known_files.specs.Unknown.{AreUnknown, unknown_in};

/// Where no entry of a list is unknown, each entry after the first is known, and the first is known or one of the boot aggregate; where none
/// of further entries is, each of them is known; and where none from a number on is, each from there on.
pub fn each_is_known()
    ensures list { (texts : List (List ℕ)) (entries : List ListEntry) → unknown_in texts 0 entries ≡ []
        → AllByRecursion (IsKnown texts) (drop 1 entries) }
    ensures first { (texts : List (List ℕ)) (entry : ListEntry) (entries : List ListEntry) → unknown_in texts 0 (entry ∷ entries) ≡ []
        → IsKnown texts entry ⊎ (is_aggregate entry ≡ true) }
    ensures later { (texts : List (List ℕ)) (first : ℕ) (entries : List ListEntry) → 0 < first → unknown_in texts first entries ≡ []
        → AllByRecursion (IsKnown texts) entries }
    ensures from { (texts : List (List ℕ)) (first : ℕ) (entries : List ListEntry) → AreUnknown texts first entries []
        → AllByRecursion (IsKnown texts) (drop (max 1 first) entries) }
{}

/// Texts that were taken list no digest by SHA-1.
pub fn none_by_sha1()
    ensures { (texts : List (List ℕ)) (digest : Digest) → AllByRecursion IsGoodText texts → IsListed texts digest
        → alg_of digest ≡ algs.Sha1 → ⊥ }
{}
