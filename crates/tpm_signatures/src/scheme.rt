//! How a signature was made.

ghost use Rattle.std.specs.Prelude.{◌≡◌};
ghost use Rattle.tpm_signatures.specs.Spelling.{scheme_with};

/// How a signature was made.
#[derive(Clone, Copy)]
pub(crate) enum Scheme {
    Rsassa,
    Rsapss,
    Ecdsa,
}

impl Scheme {
    // The scheme with this `TPM_ALG_ID`.
    pub(crate) fn with(id: u16) -> Option<Scheme>
        ensures { result ≡ scheme_with id }
    {
        match id {
            0x0014 => Some(Scheme::Rsassa),
            0x0016 => Some(Scheme::Rsapss),
            0x0018 => Some(Scheme::Ecdsa),
            _ => None,
        }
    }
}
