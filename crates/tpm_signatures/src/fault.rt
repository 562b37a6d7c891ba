ghost use Rattle.std.specs.Prelude.{◌≡◌};

use thiserror::Error;

/// Why bytes are not a signature that is taken: the first fault from left to right.
#[derive(Clone, Copy, Debug, PartialEq, Eq, Error)]
pub enum SignatureFault {
    /// 1: the signature is cut short.
    #[error("the signature is cut short")]
    Truncated,
    /// 2: its scheme is not RSASSA, RSAPSS or ECDSA.
    #[error("the signature's scheme is not RSASSA, RSAPSS or ECDSA")]
    UnknownScheme,
    /// 3: its hash is not known.
    #[error("the signature's hash is not known")]
    UnknownHash,
    /// 4: bytes follow the signature.
    #[error("bytes follow the signature")]
    Trailing,
}

impl SignatureFault {
    ghost use Rattle.tpm_signatures.specs.Faults.{signature_fault_number};

    /// The fault's number, 1 to 4.
    pub fn number(self) -> u32
        ensures { result ≡ signature_fault_number self }
    {
        match self {
            SignatureFault::Truncated => 1,
            SignatureFault::UnknownScheme => 2,
            SignatureFault::UnknownHash => 3,
            SignatureFault::Trailing => 4,
        }
    }
}
