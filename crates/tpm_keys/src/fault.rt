ghost use Rattle.std.specs.Prelude.{◌≡◌};

use thiserror::Error;

/// Why bytes are not the public area of a key that is asked for: the first fault of the frame, then of the area from left to right, and then
/// the first thing that the key lacks.
#[derive(Clone, Copy, Debug, PartialEq, Eq, Error)]
pub enum KeyFault {
    /// 1: the public area is cut short.
    #[error("the public area is cut short")]
    Truncated,
    /// 2: it is of neither an RSA nor an ECC key.
    #[error("the public area is of neither an RSA nor an ECC key")]
    OtherType,
    /// 3: a hash in it is not known.
    #[error("the public area names a hash that is not known")]
    UnknownHash,
    /// 4: its symmetric algorithm is neither none nor AES.
    #[error("the key's symmetric algorithm is neither none nor AES")]
    OtherSymmetric,
    /// 5: its scheme is not known, of a key of its type.
    #[error("the key's scheme is not known")]
    UnknownScheme,
    /// 6: its exponent is not 65,537.
    #[error("the key's exponent is not 65,537")]
    OtherExponent,
    /// 7: its curve is not P-256, P-384 or P-521.
    #[error("the key's curve is not P-256, P-384 or P-521")]
    UnknownCurve,
    /// 8: it has a key derivation.
    #[error("the key has a key derivation")]
    KeyDerivation,
    /// 9: the modulus has not as many bits as are stated, or a coordinate has more bytes than the curve's.
    #[error("the key has not the size that is stated, or that its curve has")]
    KeySize,
    /// 10: bytes follow the public area.
    #[error("bytes follow the public area")]
    Trailing,
    /// 11: its name is by SHA-1.
    #[error("the key's name is by SHA-1")]
    WeakName,
    /// 12: it may leave its TPM: fixedTPM is clear.
    #[error("the key may leave its TPM")]
    LeavesTpm,
    /// 13: it may be moved below another key: fixedParent is clear.
    #[error("the key may be moved below another key")]
    LeavesParent,
    /// 14: its TPM did not make all that is secret in it: sensitiveDataOrigin is clear.
    #[error("the key was not made by its TPM")]
    NotMadeByTpm,
    /// 15: it is not restricted: the TPM signs, or decrypts, what anyone gives it.
    #[error("the key is not restricted: its TPM signs or decrypts with it what anyone gives it")]
    Unrestricted,
    /// 16: it is an RSA key of fewer than 2,048 bits.
    #[error("the key is an RSA key of fewer than 2,048 bits")]
    ShortKey,
    /// 17: as an attestation key: it does not sign.
    #[error("the key does not sign")]
    DoesNotSign,
    /// 18: as an attestation key: it decrypts.
    #[error("the key decrypts, as an attestation key does not")]
    Decrypts,
    /// 19: as an attestation key: no signing scheme is fixed in it, which is RSASSA, RSAPSS or ECDSA.
    #[error("the key's scheme is not RSASSA, RSAPSS or ECDSA")]
    NoSigningScheme,
    /// 20: as an attestation key: its signatures are by SHA-1.
    #[error("the key's signatures are by SHA-1")]
    WeakHash,
    /// 21: as an endorsement key: it signs.
    #[error("the key signs, as an endorsement key does not")]
    Signs,
    /// 22: as an endorsement key: it does not decrypt.
    #[error("the key does not decrypt")]
    DoesNotDecrypt,
}

impl KeyFault {
    ghost use Rattle.tpm_keys.specs.Faults.{key_fault_number};

    /// The fault's number, 1 to 22.
    pub fn number(self) -> u32
        ensures { result ≡ key_fault_number self }
    {
        match self {
            KeyFault::Truncated => 1,
            KeyFault::OtherType => 2,
            KeyFault::UnknownHash => 3,
            KeyFault::OtherSymmetric => 4,
            KeyFault::UnknownScheme => 5,
            KeyFault::OtherExponent => 6,
            KeyFault::UnknownCurve => 7,
            KeyFault::KeyDerivation => 8,
            KeyFault::KeySize => 9,
            KeyFault::Trailing => 10,
            KeyFault::WeakName => 11,
            KeyFault::LeavesTpm => 12,
            KeyFault::LeavesParent => 13,
            KeyFault::NotMadeByTpm => 14,
            KeyFault::Unrestricted => 15,
            KeyFault::ShortKey => 16,
            KeyFault::DoesNotSign => 17,
            KeyFault::Decrypts => 18,
            KeyFault::NoSigningScheme => 19,
            KeyFault::WeakHash => 20,
            KeyFault::Signs => 21,
            KeyFault::DoesNotDecrypt => 22,
        }
    }
}
