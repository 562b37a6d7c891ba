//! What a value tells of the extends that end in it.

ghost use Rattle.std.specs.Prelude.{◌≡◌, ◌⊎◌, ℕ, List, length};
ghost use Rattle.pcr_banks.specs.declared.alg.Alg.{Alg};
ghost use Rattle.pcr_banks.specs.Names.{extended_by_all, size_of};
ghost use Rattle.binding_laws.specs.BankBinding.{ExtendsBreakHash};

/// What the value of a register tells. If two sequences of extends end in the same value, they have the same start value and the
/// same digests in the same order, or they break the hash. Each extend hashes one input: the value before it, followed by its
/// digest. The break is a collision between an input of the first sequence and one of the second; or, only if one sequence is
/// longer, a preimage of the other's start value among the inputs of the longer one.
pub fn value_tells_extends()
    ensures { (alg : Alg) (value other : List ℕ) (digests others : List (List ℕ)) → length value ≡ size_of alg
        → length other ≡ size_of alg → extended_by_all alg value digests ≡ extended_by_all alg other others
        → ((value ≡ other) × (digests ≡ others)) ⊎ ExtendsBreakHash alg value digests other others }
{}
