//! Laws: consequences of the definitions, each the contract of a function that does nothing.

ghost use Rattle.std.specs.Prelude.{ℕ, ◌<◌, ◌++◌, List, length, slice_index};
ghost use Rattle.tpm_keys.specs.KeyInfo.{integer};
ghost use Rattle.signature_hashes.specs.declared.hashes.Hash.{Hash};
ghost use Rattle.signed_messages.specs.Keys.{EccKey};
ghost use Rattle.signed_messages.specs.Signing.{IsValidEcdsa};

/// The numbers of each signature by ECDSA have a length that fits one byte in DER, so `IsPlain` leaves none out.
pub fn numbers_of_signatures_are_short()
    ensures { (key : EccKey) (hash : Hash) (message r s : List ℕ) → IsValidEcdsa key hash message r s → 0 < slice_index r 0 → 0 < slice_index s 0
        → length (integer r ++ integer s) < 0x80 }
{}
