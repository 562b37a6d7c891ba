//! What an attestation tells of a log and a list.

ghost use Rattle.std.specs.Prelude.{◌≡◌, ◌⊎◌, ◌<◌, ℕ, List, true};
ghost use Rattle.pcr_banks.specs.declared.alg.Alg.{Alg};
ghost use Rattle.pcr_banks.specs.Names.{register_count};
ghost use Rattle.tpm_quotes.specs.Spelling.{selects};
ghost use Rattle.binding_laws.specs.AttestationBinding.{BreakHash, ExtendRegisterAlike, TwoAttestations};

/// What an attestation tells: if two logs and lists are attested by one message, they extend each register that it selects alike, or they
/// break a hash. It selects each required register, and perhaps more.
pub fn attestation_tells_extends()
    ensures { (message : List ℕ) (both : TwoAttestations message) (alg : Alg) (register : ℕ) → register < register_count
        → selects both.one.quote.selections alg register ≡ true
        → ExtendRegisterAlike alg register message both ⊎ BreakHash alg register message both }
{}
