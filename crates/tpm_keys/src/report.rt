//! What is told of a key.

ghost use Rattle.std.specs.Prelude.{◌≡◌, ◌≤◌, length, IfOk};
ghost use Rattle.tpm_keys.specs.Reports.{IsReport, kind_bits, kind_name, kind_of, name_bytes};
ghost use Rattle.tpm_keys.specs.Spelling.{AreNumbers, area_of, area_spelling, numbers_of};

use crate::area::{PublicArea, Scheme};
use crate::der::key_pem;
use crate::kinds::Curve;
use crate::material::Material;
use pcr_banks::{Digest, MOST_DIGITS, hash};
use std::alloc::{AllocError, Global};

/// The largest number of bytes in a name: two, and those of the largest digest.
pub const MOST_NAME_BYTES: usize = 2 + MOST_DIGITS / 2;

/// The kind of a key, and its size.
#[derive(Clone, Copy)]
pub enum KeyKind {
    /// RSA, with a modulus of so many bits.
    Rsa(usize),
    /// Of this elliptic curve.
    Ecc(Curve),
}

impl KeyKind {
    /// The name in lower case.
    pub fn name(self) -> &'static str
        ensures { result.now ≡ kind_name self }
    {
        match self {
            KeyKind::Rsa(_) => "rsa",
            KeyKind::Ecc(_) => "ecc",
        }
    }

    /// How many bits the modulus has, or a coordinate.
    pub fn bits(self) -> usize
        ensures { result ≡ kind_bits self }
    {
        match self {
            KeyKind::Rsa(bits) => bits,
            KeyKind::Ecc(curve) => curve.bits(),
        }
    }
}

/// What is told of a key.
#[derive(Drop)]
pub struct KeyReport {
    /// Its name, by which a TPM knows it: the hash of its public area.
    pub name: Digest,
    /// Its kind and size.
    pub kind: KeyKind,
    /// How it signs or decrypts.
    pub scheme: Scheme,
    /// Its PEM: the text of its SubjectPublicKeyInfo (RFC 7468).
    pub pem: String,
}

impl PublicArea<'_> {
    /// What is told of the key. Fails only if memory runs out.
    pub fn report(&self, alloc: Global) -> Result<KeyReport, AllocError>
        ensures { AreNumbers (area_of self.now).numbers → self.now.spelled.now ≡ area_spelling (area_of self.now)
            → IfOk result (IsReport (area_of self.now)) }
    {
        Ok(KeyReport {
            name: hash(self.name_alg, self.spelled),
            kind: kind(self.material),
            scheme: self.scheme,
            pem: key_pem(alloc, self.material)?,
        })
    }
}

// The kind of a key of these numbers. The bits of a modulus of 2^61 bytes or more have no number here: that of a public area has fewer than 2^13.
fn kind(material: Material<'_>) -> KeyKind
    ensures { AreNumbers (numbers_of material.entry) → result ≡ kind_of (numbers_of material.entry) }
{
    match material {
        Material::Rsa { modulus, .. } => KeyKind::Rsa(modulus.len().saturating_mul(8)),
        Material::Ecc { curve, .. } => KeyKind::Ecc(curve),
    }
}

/// The bytes of a name as the TPM has it, written into `room`: the number of its algorithm, and the hash.
pub fn name_bytes<'a>(name: &Digest, room: &'a mut [u8; MOST_NAME_BYTES]) -> &'a [u8]
    ensures value { result.now ≡ name_bytes name.now }
    ensures fits { length result.now ≤ MOST_NAME_BYTES }
{
    let bytes = name.bytes();
    let end = 2 + bytes.len();
    room[..2].copy_from_slice(&name.alg().tpm_id().to_be_bytes());
    room[2..end].copy_from_slice(bytes);
    &room[..end]
}
