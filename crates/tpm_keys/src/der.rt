//! A key's SubjectPublicKeyInfo in DER, and its PEM.

ghost use Rattle.std.specs.Prelude.{◌≡◌, ◌++◌, ◌≤◌, length, IfOk, OnOk};
ghost use Rattle.std.specs.String.{string_bytes};
ghost use Rattle.tpm_keys.specs.KeyInfo.{algorithm_of, der, der_length, in_lines, integer, key_base64, key_bytes, key_info, key_pem, padded, pem_of, without_zeros};
ghost use Rattle.tpm_keys.specs.Spelling.{EccNumbers, RsaNumbers, numbers_of};

use crate::kinds::Curve;
use crate::material::Material;
use base64::engine::general_purpose::STANDARD;
use std::alloc::{AllocError, Global};

// The tag of a number.
const INTEGER: u8 = 0x02;

// The tag of a string of bits.
const BIT_STRING: u8 = 0x03;

// The tag of a sequence.
const SEQUENCE: u8 = 0x30;

// 65,537, the exponent of each RSA key.
const EXPONENT: [u8; 5] = [INTEGER, 3, 0x01, 0x00, 0x01];

// rsaEncryption, which has no parameter.
const RSA: [u8; 15] = [
    SEQUENCE, 13, 0x06, 9, 0x2A, 0x86, 0x48, 0x86, 0xF7, 0x0D, 0x01, 0x01, 0x01, 0x05, 0,
];

// id-ecPublicKey with secp256r1.
const P256: [u8; 21] = [
    SEQUENCE, 19, 0x06, 7, 0x2A, 0x86, 0x48, 0xCE, 0x3D, 0x02, 0x01, 0x06, 8, 0x2A, 0x86, 0x48,
    0xCE, 0x3D, 0x03, 0x01, 0x07,
];

// The same with secp384r1.
const P384: [u8; 18] = [
    SEQUENCE, 16, 0x06, 7, 0x2A, 0x86, 0x48, 0xCE, 0x3D, 0x02, 0x01, 0x06, 5, 0x2B, 0x81, 0x04,
    0x00, 0x22,
];

// The same with secp521r1.
const P521: [u8; 18] = [
    SEQUENCE, 16, 0x06, 7, 0x2A, 0x86, 0x48, 0xCE, 0x3D, 0x02, 0x01, 0x06, 5, 0x2B, 0x81, 0x04,
    0x00, 0x23,
];

// Before the two coordinates of a point: none is left out.
const UNCOMPRESSED: u8 = 0x04;

// How many characters a line of PEM has.
const LINE: usize = 64;

/// The key's PEM: its SubjectPublicKeyInfo in base64, between two lines. Fails only if memory runs out.
#[tactic(auto, using(crate::proofs::PemLaws::pem_is_text))]
pub fn key_pem(alloc: Global, material: Material<'_>) -> Result<String, AllocError>
    ensures { IfOk result (λ pem. string_bytes pem ≡ key_pem (numbers_of material.entry)) }
{
    let text = key_base64(alloc, material)?;
    let pem = pem_of(alloc, text.as_bytes())?;
    let Ok(pem) = String::from_utf8(pem) else {
        unreachable!();
    };
    Ok(pem)
}

// The base64 of the key's SubjectPublicKeyInfo.
#[tactic(auto, unfolding(crate::specs::KeyInfo::key_base64))]
fn key_base64(alloc: Global, material: Material<'_>) -> Result<String, AllocError>
    ensures { IfOk result (λ text. string_bytes text ≡ key_base64 (numbers_of material.entry)) }
{
    let info = key_info(alloc, material)?;
    STANDARD.encode(alloc, &info)
}

// The PEM with this text.
fn pem_of(alloc: Global, text: &[u8]) -> Result<Vec<u8>, AllocError>
    ensures { IfOk result (λ pem. pem.items ≡ pem_of text.now) }
{
    let mut pem = Vec::from_slice(alloc, b"-----BEGIN PUBLIC KEY-----\n")?;
    push_lines(text, &mut pem)?;
    pem.extend_from_slice(b"-----END PUBLIC KEY-----\n")?;
    Ok(pem)
}

// Appends a text in lines.
fn push_lines(text: &[u8], pem: &mut Vec<u8>) -> Result<(), AllocError>
    ensures { OnOk result (pem.new.items ≡ pem.old.items ++ in_lines text.now) }
{
    for line in text.chunks(LINE) {
        pem.extend_from_slice(line)?;
        pem.push(b'\n')?;
    }
    Ok(())
}

// The key's SubjectPublicKeyInfo.
fn key_info(alloc: Global, material: Material<'_>) -> Result<Vec<u8>, AllocError>
    ensures { IfOk result (λ info. info.items ≡ key_info (numbers_of material.entry)) }
{
    let key = key_bytes(alloc, material)?;
    let bits = der(alloc, BIT_STRING, &[0], &key)?;
    der(alloc, SEQUENCE, algorithm(material), &bits)
}

// What kind of key it is.
fn algorithm(material: Material<'_>) -> &'static [u8]
    ensures { result.now ≡ algorithm_of (numbers_of material.entry) }
{
    match material {
        Material::Rsa { .. } => &RSA,
        Material::Ecc { curve, .. } => match curve {
            Curve::P256 => &P256,
            Curve::P384 => &P384,
            Curve::P521 => &P521,
        },
    }
}

// The key itself.
fn key_bytes(alloc: Global, material: Material<'_>) -> Result<Vec<u8>, AllocError>
    ensures { IfOk result (λ key. key.items ≡ key_bytes (numbers_of material.entry)) }
{
    match material {
        Material::Rsa { modulus, .. } => rsa_key(alloc, modulus),
        Material::Ecc { curve, x, y } => point(alloc, curve, x, y),
    }
}

// An RSA key with this modulus.
fn rsa_key(alloc: Global, modulus: &[u8]) -> Result<Vec<u8>, AllocError>
    ensures { IfOk result (λ key. key.items ≡ key_bytes (RsaNumbers 65537 modulus.now)) }
{
    let modulus = integer(alloc, modulus)?;
    der(alloc, SEQUENCE, &modulus, &EXPONENT)
}

// A point of a curve.
fn point(alloc: Global, curve: Curve, x: &[u8], y: &[u8]) -> Result<Vec<u8>, AllocError>
    ensures { IfOk result (λ key. key.items ≡ key_bytes (EccNumbers curve x.now y.now)) }
{
    let mut point = Vec::new(alloc);
    point.push(UNCOMPRESSED)?;
    push_padded(curve, x, &mut point)?;
    push_padded(curve, y, &mut point)?;
    Ok(point)
}

// Appends a coordinate, with zeros before one that is shorter than those of the curve.
fn push_padded(curve: Curve, coordinate: &[u8], point: &mut Vec<u8>) -> Result<(), AllocError>
    ensures { OnOk result (point.new.items ≡ point.old.items ++ padded curve coordinate.now) }
{
    let zeros = curve.coordinate_size().saturating_sub(coordinate.len());
    for _ in 0..zeros {
        point.push(0)?;
    }
    point.extend_from_slice(coordinate)
}

// A number that is not negative.
fn integer(alloc: Global, bytes: &[u8]) -> Result<Vec<u8>, AllocError>
    ensures { IfOk result (λ value. value.items ≡ integer bytes.now) }
{
    match bytes.first() {
        Some(0x80..=0xFF) => der(alloc, INTEGER, &[0], bytes),
        _ => der(alloc, INTEGER, &[], bytes),
    }
}

// A value with this tag, of a content in two parts.
fn der(alloc: Global, tag: u8, prefix: &[u8], back: &[u8]) -> Result<Vec<u8>, AllocError>
    ensures { IfOk result (λ value. value.items ≡ der tag (prefix.now ++ back.now)) }
{
    let mut content = Vec::from_slice(alloc, prefix)?;
    content.extend_from_slice(back)?;
    let mut value = Vec::new(alloc);
    value.push(tag)?;
    push_length(content.len(), &mut value)?;
    value.extend_from_slice(&content)?;
    Ok(value)
}

// Appends the length of a content of so many bytes.
fn push_length(size: usize, value: &mut Vec<u8>) -> Result<(), AllocError>
    ensures { OnOk result (value.new.items ≡ value.old.items ++ der_length size) }
{
    if size < 0x80 {
        value.push(size as u8)?;
        return Ok(());
    }
    let bytes = size.to_be_bytes();
    let bytes = without_zeros(&bytes);
    value.push(0x80 + bytes.len() as u8)?;
    value.extend_from_slice(bytes)
}

// The bytes without the zeros that they begin with.
fn without_zeros(bytes: &[u8]) -> &[u8]
    ensures value { result.now ≡ without_zeros bytes.now }
    ensures shorter { length result.now ≤ length bytes.now }
{
    let mut zeros = 0;
    while zeros < bytes.len() && bytes[zeros] == 0 {
        zeros += 1;
    }
    &bytes[zeros..]
}
