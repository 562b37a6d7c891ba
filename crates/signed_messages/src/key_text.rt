//! Whether a message is signed by the key that a text states.

ghost use Rattle.std.specs.Prelude.{◌≡◌, ◌⊎◌, Err, IfOk, IfErr, IsOk};
ghost use Rattle.signed_messages.specs.declared.check_fault.CheckFault.TheVariants as faults;
ghost use Rattle.signed_messages.specs.declared.refusal.SignatureRefusal.TheVariants.{OtherPem};
ghost use Rattle.signed_messages.specs.Keys.{MessageKey, key_of};
ghost use Rattle.signed_messages.specs.KeyTexts.{IsAreaFault, IsCheckFault, IsKeyPem, IsPemFault, IsSignedByArea, IsSignedByPem, IsSignedByText};
ghost use Rattle.signed_messages.specs.parts.PemReading.{IsInfoIn};

use crate::check::check_signature;
use crate::check_fault::CheckFault;
use crate::key::{VerifyingKey, key_alone};
use crate::pem::{info_in, is_pem_of, material_in};
use crate::refusal::SignatureRefusal;
use std::alloc::Global;
use tpm_keys::{Purpose, read_key};

// With what PEM begins.
const PEM: &[u8] = b"-----BEGIN";

/// Checks that the bytes are a signature of the message by the key that `key` states: the public area of an attestation key, as
/// `tpm2_readpublic -o` writes it or without its size, or the PEM that `ima-agent key --print pem` writes of one.
///
/// A public area is looked at for what it must have, and the signature is by its scheme, with its hash. PEM states numbers alone: pass it only for a
/// key whose public area was checked before. A text that begins as PEM does is read as PEM. The key is looked at first, then the signature, as
/// `check_signature` does.
///
/// `Ok` says that the key signed these bytes, not what they are.
pub fn check_signed(
    alloc: Global,
    key: &[u8],
    message: &[u8],
    signature: &[u8],
) -> Result<(), CheckFault>
    // `Ok` only if the message is signed.
    ensures signed { IfOk result (λ _. IsSignedByText key.now message.now signature.now) }
    // Every signature is taken, unless memory runs out.
    ensures only { IsSignedByText key.now message.now signature.now → IsOk result ⊎ (result ≡ Err faults.Memory) }
    ensures fault { IfErr result (IsCheckFault key.now message.now signature.now) }
{
    if key.starts_with(PEM) {
        check_by_pem(alloc, key, message, signature)
    } else {
        check_by_area(key, message, signature)
    }
}

// Checks that the message is signed by the attestation key with this public area.
fn check_by_area(area: &[u8], message: &[u8], signature: &[u8]) -> Result<(), CheckFault>
    ensures signed { IfOk result (λ _. IsSignedByArea area.now message.now signature.now) }
    ensures only { IsSignedByArea area.now message.now signature.now → IsOk result }
    ensures fault { IfErr result (IsAreaFault area.now message.now signature.now) }
{
    let area = read_key(area, Purpose::Attestation)?;
    let Some(key) = VerifyingKey::of(&area) else {
        return Err(CheckFault::Signature(SignatureRefusal::OtherKey));
    };
    Ok(check_signature(key, message, signature)?)
}

// Checks that the message is signed by the key with this PEM.
fn check_by_pem(
    alloc: Global,
    pem: &[u8],
    message: &[u8],
    signature: &[u8],
) -> Result<(), CheckFault>
    ensures signed { IfOk result (λ _. IsSignedByPem pem.now message.now signature.now) }
    ensures only { IsSignedByPem pem.now message.now signature.now → IsOk result ⊎ (result ≡ Err faults.Memory) }
    ensures fault { IfErr result (IsPemFault pem.now message.now signature.now) }
{
    let info = info_in(alloc, pem)?;
    let key = key_with_pem(alloc, pem, &info)?;
    Ok(check_signature(key, message, signature)?)
}

// The key with this PEM, if these bytes are its SubjectPublicKeyInfo: what is there is taken for its numbers, and its PEM compared.
fn key_with_pem<'a>(
    alloc: Global,
    pem: &[u8],
    info: &'a [u8],
) -> Result<VerifyingKey<'a>, CheckFault>
    ensures found { IfOk result (λ key. IsKeyPem pem.now (key_of key)) }
    ensures one { IsInfoIn pem.now info.now → IfOk result (λ key. (other : MessageKey) → IsKeyPem pem.now other → key_of key ≡ other) }
    ensures fault { IsInfoIn pem.now info.now → IfErr result (λ fault. (fault ≡ faults.Memory)
        ⊎ ((fault ≡ faults.Signature OtherPem) × ((other : MessageKey) → IsKeyPem pem.now other → ⊥))) }
{
    let Some(material) = material_in(info) else {
        return Err(CheckFault::Signature(SignatureRefusal::OtherPem));
    };
    let Some(key) = key_alone(material) else {
        return Err(CheckFault::Signature(SignatureRefusal::OtherPem));
    };
    if !is_pem_of(alloc, pem, material)? {
        return Err(CheckFault::Signature(SignatureRefusal::OtherPem));
    }
    Ok(key)
}
