//! Whether a message is signed by a key on a curve.

ghost use Rattle.std.specs.Prelude.{◌≡◌, ◌⊎◌, ◌↔◌, IsTrue, IsOk, IfOk, IfErr, option_map};
ghost use Rattle.tpm_signatures.specs.Spelling.{numbers_of, signature_of};
ghost use Rattle.signature_hashes.specs.declared.hashes.Hash.{Hash};
ghost use Rattle.signed_messages.specs.declared.refusal.SignatureRefusal.TheVariants as refusals;
ghost use Rattle.signed_messages.specs.Keys.{ecc_key_of};
ghost use Rattle.signed_messages.specs.Signing.{IsSignedByEcc, IsValidEcdsa, TakesEcdsa, stated_ecdsa};
ghost use Rattle.signed_messages.specs.Refusals.{HasOtherEcdsaHash, IsEccRefusal, IsOtherThanEcdsa, ecdsa_numbers};

use crate::key::{EccPublicKey, hash_with, is_same_hash};
use crate::plain::plain_numbers;
use crate::refusal::{SignatureRefusal, answer};
use ecdsa_signatures::verify;
use signature_hashes::Hash;
use tpm_signatures::{Signature, SignatureNumbers, read_signature};

/// Checks that the bytes are a signature of the message by this key on a curve.
pub(crate) fn check_ecc(
    key: EccPublicKey<'_>,
    message: &[u8],
    signature: &[u8],
) -> Result<(), SignatureRefusal>
    ensures signed { IfOk result (λ _. IsSignedByEcc (ecc_key_of key.entry) message.now signature.now) }
    ensures only { IsSignedByEcc (ecc_key_of key.entry) message.now signature.now → IsOk result }
    ensures refusal { IfErr result (IsEccRefusal (ecc_key_of key.entry) message.now signature.now) }
{
    if let Ok((r, s)) = plain_numbers(signature) {
        return answer(is_signed_plainly(key, message, r, s));
    }
    let (hash, r, s) = taken(key.hash, read_signature(signature)?)?;
    answer(is_valid(key, hash, message, r, s))
}

// Whether the numbers are a signature with a hash that the key takes.
fn is_signed_plainly(key: EccPublicKey<'_>, message: &[u8], r: &[u8], s: &[u8]) -> bool
    ensures { IsTrue result ↔ ((hash : Hash) × TakesEcdsa key.entry.hash hash × IsValidEcdsa (ecc_key_of key.entry) hash message.now r.now s.now) }
{
    match key.hash {
        Some(hash) => is_valid(key, hash, message, r, s),
        None => is_valid_by_any(key, message, r, s),
    }
}

// Whether the numbers are a signature with any hash.
fn is_valid_by_any(key: EccPublicKey<'_>, message: &[u8], r: &[u8], s: &[u8]) -> bool
    ensures { IsTrue result ↔ ((hash : Hash) × IsValidEcdsa (ecc_key_of key.entry) hash message.now r.now s.now) }
{
    is_valid(key, Hash::Sha256, message, r, s)
        || is_valid(key, Hash::Sha384, message, r, s)
        || is_valid(key, Hash::Sha512, message, r, s)
}

// Whether the numbers are a signature with this hash.
fn is_valid(key: EccPublicKey<'_>, hash: Hash, message: &[u8], r: &[u8], s: &[u8]) -> bool
    ensures { IsTrue result ↔ IsValidEcdsa (ecc_key_of key.entry) hash message.now r.now s.now }
{
    verify(key.curve, hash, key.x, key.y, message, r, s)
}

// The hash and the numbers that a signature states, if it is by ECDSA, and with a hash that the key takes.
fn taken(
    key_hash: Option<Hash>,
    signature: Signature<'_>,
) -> Result<(Hash, &[u8], &[u8]), SignatureRefusal>
    ensures found { IfOk result (λ x. TakesEcdsa key_hash x.0 × (signature_of signature.entry ≡ stated_ecdsa x.0 x.1.now x.2.now)) }
    ensures refusal { IfErr result (λ refusal. ((refusal ≡ refusals.OtherScheme) × IsOtherThanEcdsa (signature_of signature.entry))
        ⊎ ((refusal ≡ refusals.OtherHash) × HasOtherEcdsaHash key_hash (signature_of signature.entry))) }
{
    let Some((r, s)) = ecdsa_numbers(signature.numbers) else {
        return Err(SignatureRefusal::OtherScheme);
    };
    let Some(hash) = hash_with(signature.hash) else {
        return Err(SignatureRefusal::OtherHash);
    };
    if !takes_hash(key_hash, hash) {
        return Err(SignatureRefusal::OtherHash);
    }
    Ok((hash, r, s))
}

// The numbers of a signature, if it is by ECDSA.
fn ecdsa_numbers(numbers: SignatureNumbers<'_>) -> Option<(&[u8], &[u8])>
    ensures { option_map (λ x. (x.0.now, x.1.now)) result ≡ ecdsa_numbers (numbers_of numbers.entry) }
{
    match numbers {
        SignatureNumbers::Ecdsa { r, s } => Some((r, s)),
        _ => None,
    }
}

// Whether the key signs with this hash.
fn takes_hash(key_hash: Option<Hash>, hash: Hash) -> bool
    ensures { IsTrue result ↔ TakesEcdsa key_hash hash }
{
    match key_hash {
        None => true,
        Some(its) => is_same_hash(its, hash),
    }
}
