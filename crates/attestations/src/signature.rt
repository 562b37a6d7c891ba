//! What is known of the signature of a quote's message.

ghost use Rattle.std.specs.Prelude.{◌≡◌};
ghost use Rattle.attestations.specs.Reports.{is_signed};

/// What is known of the signature of a quote's message.
#[derive(Clone, Copy, Debug, PartialEq, Eq)]
pub enum SignatureState {
    /// Nothing: nobody verified it. Nothing is attested, whatever the rest says.
    NotChecked,
    /// The caller says that he has verified it.
    Checked,
    /// It was verified here, by a key.
    Valid,
}

impl SignatureState {
    /// Whether it was verified, here or by the caller.
    pub fn is_signed(self) -> bool
        ensures { result ≡ is_signed self }
    {
        match self {
            SignatureState::NotChecked => false,
            SignatureState::Checked | SignatureState::Valid => true,
        }
    }
}
