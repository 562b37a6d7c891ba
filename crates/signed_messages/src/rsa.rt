//! Whether a message is signed by an RSA key.

ghost use Rattle.std.specs.Prelude.{◌≡◌, ◌⊎◌, ◌↔◌, IsTrue, IsOk, IfOk, IfErr, option_map};
ghost use Rattle.tpm_signatures.specs.Spelling.{numbers_of, signature_of};
ghost use Rattle.signed_messages.specs.declared.refusal.SignatureRefusal.TheVariants as refusals;
ghost use Rattle.signed_messages.specs.declared.key.RsaScheme.{RsaScheme};
ghost use Rattle.signed_messages.specs.declared.key.SigningScheme.{SigningScheme};
ghost use Rattle.signature_hashes.specs.declared.hashes.Hash.{Hash};
ghost use Rattle.signed_messages.specs.Keys.{rsa_key_of};
ghost use Rattle.signed_messages.specs.Signing.{IsSignedByRsa, IsValid, Takes, stated};
ghost use Rattle.signed_messages.specs.Refusals.{HasOtherHash, HasOtherScheme, IsRsaRefusal, TakesHash, TakesKind, rsa_number};

use crate::key::{RsaPublicKey, RsaScheme, SigningScheme, hash_with, is_same_hash};
use crate::refusal::{SignatureRefusal, answer};
use rsa_signatures::{verify, verify_pss};
use signature_hashes::Hash;
use tpm_signatures::{Signature, SignatureNumbers, read_signature};

/// Checks that the bytes are a signature of the message by this RSA key.
pub(crate) fn check_rsa(
    key: RsaPublicKey<'_>,
    message: &[u8],
    signature: &[u8],
) -> Result<(), SignatureRefusal>
    ensures signed { IfOk result (λ _. IsSignedByRsa (rsa_key_of key.entry) message.now signature.now) }
    ensures only { IsSignedByRsa (rsa_key_of key.entry) message.now signature.now → IsOk result }
    ensures refusal { IfErr result (IsRsaRefusal (rsa_key_of key.entry) message.now signature.now) }
{
    if signature.len() == key.modulus.len() {
        return answer(is_signed_plainly(key, message, signature));
    }
    let (scheme, number) = taken(key.scheme, read_signature(signature)?)?;
    answer(is_valid(scheme, key.modulus, message, number))
}

// Whether the number is a signature by a scheme that the key takes.
fn is_signed_plainly(key: RsaPublicKey<'_>, message: &[u8], number: &[u8]) -> bool
    ensures { IsTrue result ↔ ((scheme : SigningScheme) × Takes key.entry.scheme scheme
        × IsValid scheme.kind scheme.hash key.entry.modulus.now message.now number.now) }
{
    match key.scheme {
        Some(scheme) => is_valid(scheme, key.modulus, message, number),
        None => is_valid_by_any(key.modulus, message, number),
    }
}

// Whether the number is a signature by any scheme, with any hash.
fn is_valid_by_any(modulus: &[u8], message: &[u8], number: &[u8]) -> bool
    ensures { IsTrue result ↔ ((hash : Hash) × (kind : RsaScheme) × IsValid kind hash modulus.now message.now number.now) }
{
    is_valid_with(Hash::Sha256, modulus, message, number)
        || is_valid_with(Hash::Sha384, modulus, message, number)
        || is_valid_with(Hash::Sha512, modulus, message, number)
}

// Whether the number is a signature by any scheme, with this hash.
fn is_valid_with(hash: Hash, modulus: &[u8], message: &[u8], number: &[u8]) -> bool
    ensures { IsTrue result ↔ ((kind : RsaScheme) × IsValid kind hash modulus.now message.now number.now) }
{
    verify(hash, modulus, message, number) || verify_pss(hash, modulus, message, number)
}

// Whether the number is a signature by this scheme.
fn is_valid(scheme: SigningScheme, modulus: &[u8], message: &[u8], number: &[u8]) -> bool
    ensures { IsTrue result ↔ IsValid scheme.kind scheme.hash modulus.now message.now number.now }
{
    match scheme.kind {
        RsaScheme::Pkcs1 => verify(scheme.hash, modulus, message, number),
        RsaScheme::Pss => verify_pss(scheme.hash, modulus, message, number),
    }
}

// The scheme and the number that a signature states, if the key takes the scheme, and with its hash.
fn taken(
    key_scheme: Option<SigningScheme>,
    signature: Signature<'_>,
) -> Result<(SigningScheme, &[u8]), SignatureRefusal>
    ensures found { IfOk result (λ x. Takes key_scheme x.0 × (signature_of signature.entry ≡ stated x.0 x.1.now)) }
    ensures refusal { IfErr result (λ refusal. ((refusal ≡ refusals.OtherScheme) × HasOtherScheme key_scheme (signature_of signature.entry))
        ⊎ ((refusal ≡ refusals.OtherHash) × HasOtherHash key_scheme (signature_of signature.entry))) }
{
    let Some((kind, number)) = rsa_number(signature.numbers) else {
        return Err(SignatureRefusal::OtherScheme);
    };
    if !takes_kind(key_scheme, kind) {
        return Err(SignatureRefusal::OtherScheme);
    }
    let Some(hash) = hash_with(signature.hash) else {
        return Err(SignatureRefusal::OtherHash);
    };
    if !takes_hash(key_scheme, hash) {
        return Err(SignatureRefusal::OtherHash);
    }
    Ok((SigningScheme { kind, hash }, number))
}

// How an RSA key made a signature with these numbers, and its number.
fn rsa_number(numbers: SignatureNumbers<'_>) -> Option<(RsaScheme, &[u8])>
    ensures { option_map (λ x. (x.0, x.1.now)) result ≡ rsa_number (numbers_of numbers.entry) }
{
    match numbers {
        SignatureNumbers::Rsassa(number) => Some((RsaScheme::Pkcs1, number)),
        SignatureNumbers::Rsapss(number) => Some((RsaScheme::Pss, number)),
        SignatureNumbers::Ecdsa { .. } => None,
    }
}

// Whether the key signs so.
fn takes_kind(key_scheme: Option<SigningScheme>, kind: RsaScheme) -> bool
    ensures { IsTrue result ↔ TakesKind key_scheme kind }
{
    match key_scheme {
        None => true,
        Some(scheme) => matches!(
            (scheme.kind, kind),
            (RsaScheme::Pkcs1, RsaScheme::Pkcs1) | (RsaScheme::Pss, RsaScheme::Pss)
        ),
    }
}

// Whether the key signs with this hash.
fn takes_hash(key_scheme: Option<SigningScheme>, hash: Hash) -> bool
    ensures { IsTrue result ↔ TakesHash key_scheme hash }
{
    match key_scheme {
        None => true,
        Some(scheme) => is_same_hash(scheme.hash, hash),
    }
}
