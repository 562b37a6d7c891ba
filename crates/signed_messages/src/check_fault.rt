//! Why a message is not taken as signed by the key that a text states.

ghost use Rattle.std.specs.Prelude.{◌≡◌};
ghost use Rattle.signed_messages.specs.declared.check_fault.CheckFault.TheVariants as faults;

use crate::refusal::SignatureRefusal;
use std::alloc::AllocError;
use thiserror::Error;
use tpm_keys::KeyFault;

/// Why a message is not taken as signed by the key that a text states.
#[derive(Clone, Copy, Debug, PartialEq, Eq, Error)]
pub enum CheckFault {
    /// The text is not the public area of an attestation key.
    #[error("{0}")]
    Key(KeyFault),
    /// The key is not taken, or the message is not signed by it.
    #[error("{0}")]
    Signature(SignatureRefusal),
    /// Memory ran out.
    #[error("out of memory")]
    Memory,
}

impl From<KeyFault> for CheckFault {
    ghost from_gives = { λ key_fault fault. fault ≡ faults.Key key_fault };

    fn from(fault: KeyFault) -> Self {
        CheckFault::Key(fault)
    }
}

impl From<SignatureRefusal> for CheckFault {
    ghost from_gives = { λ refusal fault. fault ≡ faults.Signature refusal };

    fn from(refusal: SignatureRefusal) -> Self {
        CheckFault::Signature(refusal)
    }
}

impl From<AllocError> for CheckFault {
    ghost from_gives = { λ _ fault. fault ≡ faults.Memory };

    fn from(_refused: AllocError) -> Self {
        CheckFault::Memory
    }
}
