//! Whether a message is signed by a key.

ghost use Rattle.std.specs.Prelude.{IsOk, IfOk, IfErr};
ghost use Rattle.signed_messages.specs.Keys.{key_of};
ghost use Rattle.signed_messages.specs.Signing.{IsSignedBy};
ghost use Rattle.signed_messages.specs.Refusals.{IsRefusal};

use crate::ecc::check_ecc;
use crate::key::VerifyingKey;
use crate::refusal::SignatureRefusal;
use crate::rsa::check_rsa;

/// Checks that the bytes are a signature of the message by this key: its numbers alone, as `tpm2_quote -f plain` writes them, or as a TPM gives it.
///
/// For an RSA key, bytes of the modulus's length are read as the number alone. For a key on a curve, the numbers alone are in DER. Returns the first
/// refusal.
///
/// `Ok` says that the key signed these bytes, not what they are. For a quote the caller must also have: the key's public area from
/// `tpm_keys::read_key` for an attestation key, the same bytes accepted by `tpm_quotes::read_quote`, and a new nonce. A valid signature has other valid
/// spellings: never use it as an identity.
pub fn check_signature(
    key: VerifyingKey<'_>,
    message: &[u8],
    signature: &[u8],
) -> Result<(), SignatureRefusal>
    // `Ok` only if the message is signed.
    ensures signed { IfOk result (λ _. IsSignedBy (key_of key.entry) message.now signature.now) }
    // Every signature is taken.
    ensures only { IsSignedBy (key_of key.entry) message.now signature.now → IsOk result }
    ensures refusal { IfErr result (IsRefusal (key_of key.entry) message.now signature.now) }
{
    match key {
        VerifyingKey::Rsa(key) => check_rsa(key, message, signature),
        VerifyingKey::Ecc(key) => check_ecc(key, message, signature),
    }
}
