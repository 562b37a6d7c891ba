//! Laws: consequences of the definitions, each the contract of a function that does nothing.

ghost use Rattle.std.specs.Prelude.{◌≡◌, ℕ, List};
ghost use Rattle.tpm_signatures.specs.Spelling.{IsSignature, TpmSignature};

/// A signature has one reading.
pub fn signature_has_one_reading()
    ensures { (bytes : List ℕ) (first second : TpmSignature) → IsSignature bytes first → IsSignature bytes second → first ≡ second }
{}
