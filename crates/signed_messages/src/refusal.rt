//! Why a message is not taken as signed.

ghost use Rattle.std.specs.Prelude.{◌≡◌, ◌↔◌, IsTrue, IsOk, IfErr};
ghost use Rattle.signed_messages.specs.declared.refusal.SignatureRefusal.TheVariants.{Bytes, NotSigned};

use thiserror::Error;
use tpm_signatures::SignatureFault;

/// Why a message is not taken as signed by a key: the key's text is refused as `OtherKey` or `OtherPem`; or else the first of the others that holds.
/// Bytes of the length of an RSA key's modulus are refused only as `NotSigned`.
#[derive(Clone, Copy, Debug, PartialEq, Eq, Error)]
pub enum SignatureRefusal {
    /// 1 to 4: the bytes are no signature that is taken.
    #[error("{0}")]
    Bytes(SignatureFault),
    /// 5: the signature's scheme is not one that the key takes.
    #[error("the signature's scheme is not one that the key takes")]
    OtherScheme,
    /// 6: the signature's hash is SHA-1, or not the key's.
    #[error("the signature's hash is SHA-1, or not the key's")]
    OtherHash,
    /// 7: the message is not signed by this key.
    #[error("the message is not signed by this key")]
    NotSigned,
    /// 8: signatures by this key are not verified here: it is no RSA key of 2,048 to 4,096 bits and no key on P-256 or P-384.
    #[error("the key is no RSA key of 2,048 to 4,096 bits and no key on P-256 or P-384")]
    OtherKey,
    /// 9: the key's text begins as PEM does, and is not what `ima-agent key --print pem` writes of an RSA key of 2,048 to 4,096 bits, or of a key on
    /// P-256 or P-384.
    #[error("the PEM is of a kind of key that is not taken, or not as ima-agent key --print pem writes it")]
    OtherPem,
}

impl SignatureRefusal {
    ghost use Rattle.signed_messages.specs.Refusals.{signature_refusal_number};

    /// The refusal's number, 1 to 9: of bytes that are no signature that of their fault.
    pub fn number(self) -> u32
        ensures { result ≡ signature_refusal_number self }
    {
        match self {
            SignatureRefusal::Bytes(fault) => fault.number(),
            SignatureRefusal::OtherScheme => 5,
            SignatureRefusal::OtherHash => 6,
            SignatureRefusal::NotSigned => 7,
            SignatureRefusal::OtherKey => 8,
            SignatureRefusal::OtherPem => 9,
        }
    }
}

impl From<SignatureFault> for SignatureRefusal {
    ghost from_gives = { λ fault refusal. refusal ≡ Bytes fault };

    fn from(fault: SignatureFault) -> Self {
        SignatureRefusal::Bytes(fault)
    }
}

/// The answer for a valid or invalid signature.
pub(crate) fn answer(is_signed: bool) -> Result<(), SignatureRefusal>
    ensures signed { IsOk result ↔ IsTrue is_signed }
    ensures refusal { IfErr result (λ refusal. refusal ≡ NotSigned) }
{
    if is_signed {
        Ok(())
    } else {
        Err(SignatureRefusal::NotSigned)
    }
}
