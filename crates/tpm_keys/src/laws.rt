//! Laws: consequences of the definitions, each the contract of a function that does nothing.

ghost use Rattle.std.specs.Prelude.{◌≡◌, ◌↔◌, ℕ, List, None};
ghost use Rattle.tpm_keys.specs.declared.kinds.Purpose.TheVariants.{Attestation};
ghost use Rattle.tpm_keys.specs.Purposes.{IsAttestationKey, lack};
ghost use Rattle.tpm_keys.specs.Spelling.{IsPublicArea, KeyArea};

/// A public area has one reading.
pub fn public_area_has_one_reading()
    ensures { (bytes : List ℕ) (first second : KeyArea) → IsPublicArea bytes first → IsPublicArea bytes second → first ≡ second }
{}

/// A key lacks nothing as an attestation key just if it has each attribute, the scheme, the hash and the size of one.
pub fn what_lacks_nothing_is_an_attestation_key()
    ensures { (area : KeyArea) → (lack Attestation area ≡ None) ↔ IsAttestationKey area }
{}
