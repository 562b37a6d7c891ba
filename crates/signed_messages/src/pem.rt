//! A key's numbers as its PEM spells them: guessed from where they are in it. Whether they are the key's is then seen by writing its PEM.

ghost use Rattle.std.specs.Prelude.{◌≡◌, ◌⊎◌, ◌↔◌, ℕ, List, ◌++◌, length, Some, IfSome, IfOk, IfErr, IsTrue, option_map};
ghost use Rattle.tpm_keys.specs.KeyInfo.{in_lines, key_info, key_pem, pem_of};
ghost use Rattle.tpm_keys.specs.Spelling.{EccNumbers, KeyNumbers, numbers_of};
ghost use Rattle.signed_messages.specs.declared.check_fault.CheckFault.TheVariants as faults;
ghost use Rattle.signed_messages.specs.declared.refusal.SignatureRefusal.TheVariants.{OtherPem};
ghost use Rattle.signed_messages.specs.Keys.{MessageKey, key_alone};
ghost use Rattle.signed_messages.specs.KeyTexts.{AreBytes, IsKeyPem};
ghost use Rattle.signed_messages.specs.parts.PemReading.{IsInfoIn};

use crate::check_fault::CheckFault;
use crate::refusal::SignatureRefusal;
use base64::DecodeAllocError;
use base64::engine::general_purpose::STANDARD;
use std::alloc::{AllocError, Global};
use tpm_keys::{Curve, Material, key_pem};

// How many bytes a PEM's first line has, with its line feed.
const FIRST_LINE: usize = 27;

// How many its last line has.
const LAST_LINE: usize = 25;

// How many each line between them has, but for a shorter one at the end.
const LINE: usize = 65;

// How many bytes the SubjectPublicKeyInfo of a key on P-256 has.
const P256_SIZE: usize = 91;

// How many of them stand before the coordinates.
const BEFORE_P256: usize = 27;

// How many bytes that of a key on P-384 has.
const P384_SIZE: usize = 120;

// How many of them stand before the coordinates.
const BEFORE_P384: usize = 24;

// How many bytes stand before the modulus in that of an RSA key of 2,048 to 4,096 bits.
const BEFORE_MODULUS: usize = 33;

// How many stand behind it: the exponent.
const EXPONENT_SIZE: usize = 5;

/// The SubjectPublicKeyInfo in a PEM. It is refused if its base64 cannot be decoded.
pub(crate) fn info_in(alloc: Global, pem: &[u8]) -> Result<Vec<u8>, CheckFault>
    ensures found { IfOk result (λ info. IsInfoIn pem.now info.items) }
    ensures fault { IfErr result (λ fault. (fault ≡ faults.Memory)
        ⊎ ((fault ≡ faults.Signature OtherPem) × ((key : MessageKey) → IsKeyPem pem.now key → ⊥))) }
{
    let text = joined(alloc, between(pem))?;
    match STANDARD.decode(alloc, &text) {
        Ok(info) => Ok(info),
        Err(DecodeAllocError::DecodeError(_)) => {
            Err(CheckFault::Signature(SignatureRefusal::OtherPem))
        }
        Err(DecodeAllocError::OutOfMemory) => Err(CheckFault::Memory),
    }
}

// What stands between the first line of a PEM and the last.
fn between(pem: &[u8]) -> &[u8]
    ensures { (text : List ℕ) → pem.now ≡ pem_of text → result.now ≡ in_lines text }
{
    if pem.len() < FIRST_LINE + LAST_LINE {
        return &[];
    }
    &pem[FIRST_LINE..pem.len() - LAST_LINE]
}

// A text without the line feeds at the end of its lines.
fn joined(alloc: Global, lines: &[u8]) -> Result<Vec<u8>, AllocError>
    ensures { IfOk result (λ joined. (text : List ℕ) → lines.now ≡ in_lines text → joined.items ≡ text) }
{
    let mut text = Vec::new(alloc);
    for line in lines.chunks(LINE) {
        text.extend_from_slice(&line[..line.len() - 1])?;
    }
    Ok(text)
}

/// The numbers in a SubjectPublicKeyInfo, if it is that of a key that is taken: they are where its length says.
pub(crate) fn material_in(info: &[u8]) -> Option<Material<'_>>
    ensures found { (numbers : KeyNumbers) (key : MessageKey) → key_alone numbers ≡ Some key → info.now ≡ key_info numbers
        → option_map numbers_of result ≡ Some numbers }
    ensures bytes { IfSome result (λ material. AreBytes (numbers_of material)) }
{
    if info.len() == P256_SIZE {
        return Some(point(Curve::P256, &info[BEFORE_P256..]));
    }
    if info.len() == P384_SIZE {
        return Some(point(Curve::P384, &info[BEFORE_P384..]));
    }
    if info.len() < BEFORE_MODULUS + EXPONENT_SIZE {
        return None;
    }
    Some(Material::Rsa {
        exponent: 65_537,
        modulus: &info[BEFORE_MODULUS..info.len() - EXPONENT_SIZE],
    })
}

// The point with these coordinates, which have one length.
fn point(curve: Curve, coordinates: &[u8]) -> Material<'_>
    ensures found { (x y : List ℕ) → coordinates.now ≡ x ++ y → length x ≡ length y → numbers_of result ≡ EccNumbers curve x y }
    ensures bytes { AreBytes (numbers_of result) }
{
    let (x, y) = coordinates.split_at(coordinates.len() / 2);
    Material::Ecc { curve, x, y }
}

/// Whether this is the PEM of the key with these numbers.
pub(crate) fn is_pem_of(
    alloc: Global,
    pem: &[u8],
    material: Material<'_>,
) -> Result<bool, AllocError>
    ensures { IfOk result (λ is. IsTrue is ↔ (pem.now ≡ key_pem (numbers_of material.entry))) }
{
    let written = key_pem(alloc, material)?;
    Ok(written.as_bytes() == pem)
}
